// The values of a drill, and what each says of its turn.
ghost use Rattle.std.specs.Prelude.{◌≡◌, ◌<◌, ◌≤◌};
ghost use Rattle.drill_gen.specs.Values.{next_state, value_of, session_of, kind_of, size_of, uid_of, deliveries_of, backend_of, choice_of};

/// The state after one more value.
#[tactic(auto, unfolding(crate::specs::Values::next_state))]
pub fn next_state(state: u64) -> u64
    ensures { result ≡ next_state state }
{
    state
        .wrapping_mul(6_364_136_223_846_793_005)
        .wrapping_add(1_442_695_040_888_963_407)
}

/// The value of a state, of 31 bits.
#[tactic(auto, unfolding(crate::specs::Values::value_of))]
pub fn value_of(state: u64) -> u64
    ensures value { result ≡ value_of state }
    ensures small { result < 2147483648 }
{
    state >> 33
}

/// The session of a turn, 1 to 8.
#[tactic(auto, unfolding(crate::specs::Values::session_of))]
pub fn session_of(value: u64) -> u64
    ensures session { result ≡ session_of value }
    ensures few { result ≤ 8 }
{
    1 + value % 8
}

#[tactic(auto, unfolding(crate::specs::Values::kind_of))]
pub fn kind_of(value: u64) -> u64
    ensures { result ≡ kind_of value }
{
    value / 8 % 16
}

/// The letters of a message, 1 to 200.
#[tactic(auto, unfolding(crate::specs::Values::size_of))]
pub fn size_of(value: u64) -> u64
    ensures { result ≡ size_of value }
{
    1 + value / 128 % 200
}

/// The UID of a message that is to be deleted, 1 to 20.
#[tactic(auto, unfolding(crate::specs::Values::uid_of))]
pub fn uid_of(value: u64) -> u64
    ensures { result ≡ uid_of value }
{
    1 + value / 128 % 20
}

/// How many deliveries follow a command at most, 0 to 11.
#[tactic(auto, unfolding(crate::specs::Values::deliveries_of))]
pub fn deliveries_of(value: u64) -> u64
    ensures { result ≡ deliveries_of value }
{
    value / 32_768 % 12
}

/// The backend of a transfer or a crash, 1 to 3.
#[tactic(auto, unfolding(crate::specs::Values::backend_of))]
pub fn backend_of(value: u64) -> u64
    ensures backend { result ≡ backend_of value }
    ensures few { result ≤ 3 }
{
    1 + value / 1_048_576 % 3
}

/// The choice of a crash, 0 to 3.
#[tactic(auto, unfolding(crate::specs::Values::choice_of))]
pub fn choice_of(value: u64) -> u64
    ensures { result ≡ choice_of value }
{
    value % 4
}
