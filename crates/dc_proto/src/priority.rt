// Priorities of questions.

/// How much a question matters (debconf-devel(7)), from the least on.
#[derive(Clone, Copy, Debug, PartialEq, Eq, PartialOrd, Ord)]
pub enum Priority {
    Low,
    Medium,
    High,
    Critical,
}

impl Priority {
    ghost use Rattle.std.specs.Prelude.{◌≡◌, nat_le};
    ghost use Rattle.dc_proto.specs.Priorities.{priority_of, rank};

    /// The priority of a word in lower case, and `None` for any other word.
    pub fn read(word: &[u8]) -> Option<Priority>
        ensures { result ≡ priority_of word.now }
    {
        if word == b"low".as_slice() {
            Some(Priority::Low)
        } else if word == b"medium".as_slice() {
            Some(Priority::Medium)
        } else if word == b"high".as_slice() {
            Some(Priority::High)
        } else if word == b"critical".as_slice() {
            Some(Priority::Critical)
        } else {
            None
        }
    }

    /// Whether the question matters at least so much, as one has to that is asked (debconf-devel(7), INPUT).
    pub fn is_at_least(self, least: Priority) -> bool
        ensures { result ≡ nat_le (rank least) (rank self) }
    {
        self >= least
    }
}
