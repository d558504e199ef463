// The host of a process: its files, its standard output and its standard error.
ghost use Rattle.std.specs.Prelude.{◌≡◌, []};
ghost use Rattle.mur_edge.specs.Host.{TakesBack};
ghost use Rattle.murder.specs.Host.{stream_came};

use crate::stream::{ReadStream, StreamUsed, WriteStream};
use either::Either;
use mur_base::{Bytes, Memory};
use mur_edge::{Asked, Asks, Faults, Host, HostFault, Returned, Used};
use std::alloc::Global;
use std::io::{ErrorKind, Print, Printer, writer};
use std::rt::Files;
use std::{fs, str};

/// A standard stream that is written: the output or the error output.
pub type StandardStream<'a, O, E> = WriteStream<Either<Printer<'a, O>, Printer<'a, E>>>;

/// The files and the standard streams of a process.
#[derive(Drop)]
pub struct SystemHost<'a, R, O, E> {
    alloc: Global,
    files: &'a R,
    output: &'a O,
    error_output: &'a E,
    pub faults: Faults,
    /// The calls that asked for an object, and how many objects are out.
    pub asks: Asks,
    /// What is kept of the objects that came back, in order.
    pub returned: Returned<StreamUsed>,
}

impl<'a, R: Files, O: Print, E: Print> SystemHost<'a, R, O, E> {
    /// The host of a process. Nothing was asked of it, nothing is out, and no fault was counted.
    pub fn new(
        alloc: Global,
        files: &'a R,
        output: &'a O,
        error_output: &'a E,
    ) -> SystemHost<'a, R, O, E>
        ensures asks { result.asks ≡ record { asked = []; held = 0 } }
        ensures returned { result.returned ≡ [] }
        ensures faults { result.faults ≡ record { sources = 0; outputs = 0; errors = 0 } }
    {
        SystemHost {
            alloc,
            files,
            output,
            error_output,
            faults: Faults::NONE,
            asks: Asks::new(alloc),
            returned: Returned::new(),
        }
    }

    // A file by its name, which is text. Nothing where it can't be opened.
    fn open(&self, name: &[u8]) -> Result<Option<R::File>, Memory> {
        let Ok(path) = str::from_utf8(name) else {
            return Ok(None);
        };
        match fs::open(self.files, path) {
            Ok(file) => Ok(Some(file)),
            Err(error) if error.kind() == ErrorKind::OutOfMemory => Err(Memory),
            Err(_) => Ok(None),
        }
    }
}

impl<'a, R: Files, O: Print, E: Print> Host for SystemHost<'a, R, O, E> {
    type In = ReadStream<R::File>;

    type Out = StandardStream<'a, O, E>;

    ghost use Rattle.murder.specs.SystemHost.{system_facts};

    ghost facts = { system_facts };

    fn source(&mut self, name: &[u8]) -> Result<ReadStream<R::File>, HostFault> {
        let source = match self.open(name)? {
            Some(file) => Some(ReadStream::new(self.alloc, file)?),
            None => None,
        };
        let call = Asked::Source(Bytes::from_slice(self.alloc, name)?);
        match source {
            Some(source) => {
                self.asks.note_given(call)?;
                Ok(source)
            }
            None => {
                self.asks.note_failed(call)?;
                self.faults.count_source();
                Err(HostFault::Failed)
            }
        }
    }

    fn out(&mut self) -> Result<StandardStream<'a, O, E>, HostFault> {
        let sink = WriteStream::new(self.alloc, Either::Left(writer(self.output)))?;
        self.asks.note_given(Asked::Out)?;
        Ok(sink)
    }

    fn errors(&mut self) -> Result<StandardStream<'a, O, E>, HostFault> {
        let sink = WriteStream::new(self.alloc, Either::Right(writer(self.error_output)))?;
        self.asks.note_given(Asked::Errors)?;
        Ok(sink)
    }

    fn back(&mut self, used: Used<ReadStream<R::File>, StandardStream<'a, O, E>>)
        ensures { TakesBack (stream_came used.entry) (system_facts self.old) (system_facts self.new) }
    {
        self.asks.note_back();
        match used {
            Used::Source(name, source) => {
                let ReadStream {
                    counts,
                    reader,
                    room,
                } = source;
                drop(reader);
                if counts.faults > 0 {
                    self.faults.count_source();
                }
                self.returned.add(Used::Source(name, counts), room);
            }
            Used::Out(sink) => {
                if sink.counts.faults > 0 {
                    self.faults.count_output();
                }
                self.returned.add(Used::Out(sink.counts), sink.room);
            }
            Used::Errors(sink) => {
                if sink.counts.faults > 0 {
                    self.faults.count_error();
                }
                self.returned.add(Used::Errors(sink.counts), sink.room);
            }
        }
    }
}
