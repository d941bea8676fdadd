//! How many cases answer as written.

use crate::text::Text;

/// How many cases answer as written, and how many don't.
#[derive(Clone, Copy)]
pub struct Count {
    right: u64,
    wrong: u64,
}

impl Count {
    /// No case.
    pub fn none() -> Count {
        Count { right: 0, wrong: 0 }
    }

    /// One case.
    pub fn one(is_right: bool) -> Count {
        if is_right {
            Count { right: 1, wrong: 0 }
        } else {
            Count { right: 0, wrong: 1 }
        }
    }

    /// The cases of both.
    pub fn with(self, other: Count) -> Count {
        Count {
            right: self.right.saturating_add(other.right),
            wrong: self.wrong.saturating_add(other.wrong),
        }
    }

    /// Pushes a line with the counts under a title.
    pub fn push(self, title: &str, out: &mut Text) {
        out.push_str(title);
        out.push_str(": ");
        out.push_count(self.right, " ok, ");
        out.push_count(self.wrong, " differ\n");
    }
}
