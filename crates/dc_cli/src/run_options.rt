// The options of `run`: how they are spelled, and what those say that are given.
ghost use Rattle.std.specs.Prelude.{◌≡◌, ◌≢◌, ◌++◌, ℕ, List, MatchOption, MatchResult, true, false};
ghost use Rattle.dc_cli.specs.Tools.{begins_with_dash, short_word, long_word, Given};
ghost use Rattle.dc_cli.specs.RunReading.{is_value, is_given, SayNothing, SayMore, Say, IsFirst, AreRefusedBehind};

use dc_frontend::Frontend;
use dc_proto::Priority;
use dc_text::Text;
use dc_text::names::is_name;

/// An option of `run` (debconf(1)).
#[derive(Clone, Copy, Debug, PartialEq, Eq)]
pub enum RunOption {
    Owner,
    Frontend,
    Priority,
}

// What the options say that are given.
#[derive(Clone, Copy)]
pub(crate) struct RunOptions<'a> {
    pub owner: Option<&'a [u8]>,
    pub frontend: Option<Frontend>,
    pub priority: Option<Priority>,
}

// An option that words begin with, its value, and the words behind it.
#[derive(Clone, Copy)]
pub(crate) struct FirstOption<'a> {
    pub option: RunOption,
    pub value: &'a [u8],
    pub rest: &'a [Text],
}

impl RunOption {
    // The option that the word spells, of which the value is the next word.
    fn short(word: &[u8]) -> Option<RunOption>
        ensures { MatchOption result ((option : RunOption) → word.now ≢ short_word option) (λ option. word.now ≡ short_word option) }
    {
        if word == b"-o".as_slice() {
            Some(RunOption::Owner)
        } else if word == b"-f".as_slice() {
            Some(RunOption::Frontend)
        } else if word == b"-p".as_slice() {
            Some(RunOption::Priority)
        } else {
            None
        }
    }

    // The option that the word spells together with its value.
    fn long(word: &[u8]) -> Option<(RunOption, &[u8])>
        ensures { MatchOption result ((option : RunOption) (value : List ℕ) → word.now ≢ long_word option ++ value)
            (λ spelled. word.now ≡ long_word spelled.0 ++ spelled.1.now) }
    {
        if let Some(value) = word.strip_prefix(b"--owner=") {
            Some((RunOption::Owner, value))
        } else if let Some(value) = word.strip_prefix(b"--frontend=") {
            Some((RunOption::Frontend, value))
        } else if let Some(value) = word.strip_prefix(b"--priority=") {
            Some((RunOption::Priority, value))
        } else {
            None
        }
    }

    // Whether the value is one that the option takes.
    fn takes(self, value: &[u8]) -> bool
        ensures { result ≡ is_value self value.now }
    {
        match self {
            RunOption::Owner => is_name(value),
            RunOption::Frontend => Frontend::read(value).is_some(),
            RunOption::Priority => Priority::read(value).is_some(),
        }
    }
}

impl<'a> RunOptions<'a> {
    // No option is given.
    pub(crate) fn none() -> Self
        ensures { SayNothing result }
    {
        RunOptions {
            owner: None,
            frontend: None,
            priority: None,
        }
    }

    // Whether the option is given.
    fn has(&self, option: RunOption) -> bool
        ensures { result ≡ is_given self.now option }
    {
        match option {
            RunOption::Owner => self.owner.is_some(),
            RunOption::Frontend => self.frontend.is_some(),
            RunOption::Priority => self.priority.is_some(),
        }
    }

    // These options, and one more with its value.
    pub(crate) fn with(self, option: RunOption, value: &'a [u8]) -> Self
        requires { is_value option value.now ≡ true }
        ensures { SayMore self.entry option value.now result }
    {
        match option {
            RunOption::Owner => RunOptions {
                owner: Some(value),
                ..self
            },
            RunOption::Frontend => RunOptions {
                frontend: Frontend::read(value),
                ..self
            },
            RunOption::Priority => RunOptions {
                priority: Priority::read(value),
                ..self
            },
        }
    }

    // The option that the words begin with, the first of which begins with a dash, or else the place at which they are refused.
    pub(crate) fn next_option<'w>(
        &self,
        word: &'w Text,
        rest: &'w [Text],
    ) -> Result<FirstOption<'w>, usize>
        requires { begins_with_dash word.now ≡ true }
        ensures { MatchResult result (IsFirst self.now word.now rest.now)
            (λ place. (given : List Given) → Say given self.now → AreRefusedBehind given word.now rest.now place) }
    {
        if let Some(option) = RunOption::short(word.bytes()) {
            if self.has(option) {
                return Err(0);
            }
            return match rest {
                [] => Err(1),
                [value, rest @ ..] => {
                    let value = value.bytes();
                    if option.takes(value) {
                        Ok(FirstOption {
                            option,
                            value,
                            rest,
                        })
                    } else {
                        Err(1)
                    }
                }
            };
        }
        match RunOption::long(word.bytes()) {
            Some((option, value)) if !self.has(option) && option.takes(value) => {
                Ok(FirstOption {
                    option,
                    value,
                    rest,
                })
            }
            _ => Err(0),
        }
    }
}
