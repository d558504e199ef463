// The steps of four nodes, two of them at one stamp, and nodes that answer each message with itself.
ghost use Rattle.std.proofs.Common.{ap, sym};
ghost use Rattle.std.specs.Prelude.{ℕ, Option, Some, unwrap_or, ◌∷◌, []};

use crate::{
    Log, Logged, Logs, NodeRules, merge, merged_logs_run_as_logged,
    stamps_stay_within_the_number_of_steps,
};
use mur_base::Memory;
use std::alloc::Global;
use std::test::Fail;

/// Nodes that keep all numbers that they take, and send none on.
struct Keeper;

impl NodeRules for Keeper {
    type State = Vec<u64>;

    type Input = u64;

    type Output = u64;

    type Message = u64;

    ghost rules = { record {
      after = λ state input. state;
      outputs = λ state input. input ∷ [];
      messages_for = λ to outputs. [];
      taken = λ input. Some (0, input);
      taking = λ from message. message;
      taking_taken = λ input from message is. ap (λ (found : Option (ℕ × ℕ)). (unwrap_or found (0, input)).1) (sym is);
    } };
}

fn log(alloc: Global, steps: &[(u64, u8)]) -> Result<Log<u8>, Memory> {
    let mut log = Log::new(alloc);
    for (stamp, input) in steps {
        log.push(Logged {
            stamp: *stamp,
            heard: 0,
            input: *input,
        })?;
    }
    Ok(log)
}

#[test]
fn steps_are_merged_by_stamp_and_then_by_place(rt: HostRuntime) -> Result<(), Fail> {
    let alloc = rt.alloc();
    let mut logs = Logs::new(alloc);
    logs.push(log(alloc, &[(1, b'a'), (4, b'd')])?)?;
    logs.push(log(alloc, &[])?)?;
    logs.push(log(alloc, &[(2, b'b'), (4, b'e')])?)?;
    logs.push(log(alloc, &[(3, b'c')])?)?;
    let mut merged = merge(alloc, logs)?;
    assert_eq!(rt; merged.len(), 5);
    for (node, input) in [(0, b'a'), (2, b'b'), (3, b'c'), (0, b'd'), (2, b'e')] {
        let step = merged.pop().ok_or("a step is missing")?;
        assert_eq!(rt; step.node, node);
        assert_eq!(rt; step.entry.input, input);
    }
    merged_logs_run_as_logged::<Keeper>();
    stamps_stay_within_the_number_of_steps::<Keeper>();
    Ok(())
}
