// Numbers as a set (RFC 9051, 9: sequence-set).
ghost use Rattle.std.specs.Prelude.{◌≡◌, suc, ◌∷◌, ◌++◌, IsTrue, ◌↔◌, OnOk};
ghost use Rattle.imap_reply.specs.Sets.{number_run_text, set_text};

use mur_base::{Bytes, Memory, put_number};

/// Writes numbers in their order, those that follow one another as a range.
#[tactic(auto, unfolding(crate::specs::Sets::set_text, crate::specs::Sets::runs_of, crate::specs::Sets::runs_text))]
pub fn put_set(numbers: &[u32], out: &mut Bytes) -> Result<(), Memory>
    ensures { OnOk result (out.new ≡ out.old ++ set_text numbers.now) }
{
    match numbers {
        [] => Ok(()),
        [number, more @ ..] => put_runs(*number, more, out),
    }
}

/// Writes a number and what stands behind it.
fn put_runs(number: u32, more: &[u32], out: &mut Bytes) -> Result<(), Memory>
    ensures { OnOk result (out.new ≡ out.old ++ set_text (number ∷ more.now)) }
{
    let mut first = number;
    let mut last = number;
    for next in more {
        if !goes_on(last, *next) {
            put_run(first, last, out)?;
            out.push(b',')?;
            first = *next;
        }
        last = *next;
    }
    put_run(first, last, out)
}

/// Whether one number comes at once behind another.
fn goes_on(last: u32, next: u32) -> bool
    ensures { IsTrue result ↔ (suc last ≡ next) }
{
    next > last && next - last == 1
}

/// Writes the numbers from the first to the last.
#[tactic(auto, using(std::proofs::lemmas::Grind::common_steps), unfolding(crate::specs::Sets::number_run_text))]
fn put_run(first: u32, last: u32, out: &mut Bytes) -> Result<(), Memory>
    ensures { OnOk result (out.new ≡ out.old ++ number_run_text (record { first = first; last = last })) }
{
    put_number(u64::from(first), out)?;
    if first == last {
        return Ok(());
    }
    out.push(b':')?;
    put_number(u64::from(last), out)
}
