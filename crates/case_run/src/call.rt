// Calls of the program over a host in memory.
use case_base::{Fault, bytes_of, put_field, put_value, wide_number_of};
use mur_base::{Bytes, Items, Memory};
use mur_edge::{Calls, MemHost, MemSources, mem_host, mem_sink, mem_source};
use std::alloc::Global;
use top_call::murder;

/// The configuration that a host holds.
const CONFIG: &[u8] = br#"{"nodes":[{"name":"m","kind":"master"},{"name":"f1","kind":"frontend"},
    {"name":"b1","kind":"backend","partition":"p"}],
    "users":[{"name":"adm","password":"x","admin":true},{"name":"bob","password":"y"}],
    "date":"17-Jul-1996 02:44:25 -0700"}"#;

/// Carries out a call with these words over a host that holds the files `config` and `schedule`, and refuses the calls of these numbers, by
/// which it is asked for a file or an output. Prints the status, the error output, the output, and how many objects didn't go back to the host.
pub fn put_ended(
    alloc: Global,
    words: &str,
    schedule: &str,
    refused: &str,
    out: &mut Bytes,
) -> Result<(), Fault> {
    let sources = sources_of(alloc, schedule)?;
    put_over(alloc, words, sources, calls_of(alloc, refused)?, out)
}

fn put_over(
    alloc: Global,
    words: &str,
    sources: MemSources,
    refused: Calls,
    out: &mut Bytes,
) -> Result<(), Fault> {
    let mut host = host_of(alloc, sources, refused)?;
    put_called(alloc, words, &mut host, out)
}

fn put_called(
    alloc: Global,
    words: &str,
    host: &mut MemHost,
    out: &mut Bytes,
) -> Result<(), Fault> {
    put_status(alloc, words, host, out)?;
    put_field(host.error_output(), out)?;
    put_field(host.output(), out)?;
    Ok(put_value(alloc, &host.asks.held(), out)?)
}

fn put_status(
    alloc: Global,
    line: &str,
    host: &mut MemHost,
    out: &mut Bytes,
) -> Result<(), Memory> {
    let words = words_of(alloc, line)?;
    let status = murder(alloc, host, &words);
    put_value(alloc, &status.code(), out)
}

fn words_of(alloc: Global, line: &str) -> Result<Vec<String>, Memory> {
    let mut words = Vec::new(alloc);
    for word in line.split_whitespace() {
        words.push(String::from_str(alloc, word)?)?;
    }
    Ok(words)
}

fn sources_of(alloc: Global, schedule: &str) -> Result<MemSources, Fault> {
    let mut sources = MemSources::new(alloc);
    add(
        alloc,
        &mut sources,
        b"config",
        Bytes::from_slice(alloc, CONFIG)?,
    )?;
    add(alloc, &mut sources, b"schedule", bytes_of(alloc, schedule)?)?;
    Ok(sources)
}

fn add(alloc: Global, sources: &mut MemSources, name: &[u8], file: Bytes) -> Result<(), Memory> {
    let source = mem_source(alloc, file, Items::new(alloc))?;
    sources.push((Bytes::from_slice(alloc, name)?, source))
}

fn calls_of(alloc: Global, numbers: &str) -> Result<Calls, Fault> {
    let mut calls = Items::new(alloc);
    for number in numbers.split_whitespace() {
        calls.push(wide_number_of(number)?)?;
    }
    Ok(calls)
}

fn host_of(alloc: Global, sources: MemSources, refused: Calls) -> Result<MemHost, Memory> {
    let out = mem_sink(alloc, Items::new(alloc))?;
    let errors = mem_sink(alloc, Items::new(alloc))?;
    mem_host(alloc, sources, out, errors, refused)
}
