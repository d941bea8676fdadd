//! What is checked after all pairs of a map.
ghost use Rattle.tree_schema.specs.Reached.{Answers};
ghost use Rattle.tree_schema.specs.Tables.{needed_at, holds_at};

use crate::{Reader, Reason, Stop};

/// What stands under a key that is needed; where nothing does, `Missing` is answered at the key.
pub fn needed<T: Drop>(reader: &mut Reader, key: &str, value: Option<T>) -> Result<T, Stop>
    ensures { Answers (needed_at key.now value) reader.old reader.new result }
{
    match value {
        Some(value) => Ok(value),
        None => {
            reader.enter_key(key)?;
            Err(Stop::Refused(Reason::Missing))
        }
    }
}

/// The entry where a test of it holds; else the value of the key is refused.
pub fn holds_or<E: Copy>(
    reader: &mut Reader,
    key: &str,
    reason: Reason,
    holds: bool,
    entry: E,
) -> Result<E, Stop>
    ensures { Answers (holds_at key.now reason holds entry) reader.old reader.new result }
{
    if holds {
        return Ok(entry);
    }
    reader.enter_key(key)?;
    Err(Stop::Refused(reason))
}
