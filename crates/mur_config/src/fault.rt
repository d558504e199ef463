// Why a configuration is refused.
ghost use Rattle.std.specs.Prelude.{◌≡◌};
ghost use Rattle.mur_config.specs.Rules.{config_rule_number};

use mur_base::Memory;
use thiserror::Error;

/// A rule of configurations. Of those that a text breaks the first counts, in this order.
#[derive(Clone, Copy, Debug, PartialEq, Eq, Error)]
pub enum ConfigFault {
    #[error("the text is no JSON")]
    NotJson,
    #[error("a field is missing, or has a value of another kind of JSON")]
    WrongField,
    #[error("a node's kind is none of `master`, `frontend` and `backend`")]
    UnknownKind,
    #[error("two nodes, or two users, have one name")]
    NameTwice,
    #[error("there isn't one master, or there are no or more than 8 frontends or backends")]
    NodeCount,
    #[error("a name, a partition, a password, a port or the date has another form than it needs")]
    BadValue,
}

impl ConfigFault {
    /// The rule's number, from 1, as the error line prints it.
    #[tactic(auto, unfolding(crate::specs::Rules::config_rule_number))]
    pub fn number(self) -> u8
        ensures { result ≡ config_rule_number self }
    {
        match self {
            ConfigFault::NotJson => 1,
            ConfigFault::WrongField => 2,
            ConfigFault::UnknownKind => 3,
            ConfigFault::NameTwice => 4,
            ConfigFault::NodeCount => 5,
            ConfigFault::BadValue => 6,
        }
    }
}

/// Why a text gives no configuration.
#[derive(Clone, Copy, Debug, PartialEq, Eq, Error)]
pub enum ConfigError {
    #[error(transparent)]
    Refused(ConfigFault),
    #[error("out of memory")]
    Memory,
}

impl From<Memory> for ConfigError {
    ghost use Rattle.std.specs.Prelude.{◌≡◌};
    ghost use Rattle.mur_config.specs.declared.fault.ConfigError.TheVariants.{Memory as memory};

    ghost from_gives = { λ _ error. error ≡ memory };

    fn from(_memory: Memory) -> ConfigError {
        ConfigError::Memory
    }
}

impl From<ConfigFault> for ConfigError {
    ghost use Rattle.std.specs.Prelude.{◌≡◌};
    ghost use Rattle.mur_config.specs.declared.fault.ConfigError.TheVariants.{Refused};

    ghost from_gives = { λ fault error. error ≡ Refused fault };

    fn from(fault: ConfigFault) -> ConfigError {
        ConfigError::Refused(fault)
    }
}
