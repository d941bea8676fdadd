//! The folders that the words name: that of the state, which stands in front of a command, and those of a service and a rollout.
ghost use Rattle.std.specs.Prelude.{◌≡◌, map, string_bytes, option_map};
ghost use Rattle.system_adapters.specs.State.{folder_of, command_of, unescaped, documents_of, nodes_of};

/// The word before the folder of the state.
const STATE: &str = "--state";

/// The word before the folder of a service's documents.
const SERVICE: &str = "service";

/// The first word of a rollout.
const ROLLOUT: &str = "rollout";

/// The word that may stand before words that could be options.
const ESCAPE: &str = "--";

/// Takes off the folder of the state, where the words begin with `--state` and one. Else they stay, also `--state` alone.
pub fn take_folder(words: &mut Vec<String>) -> Option<String>
    ensures folder { option_map string_bytes result ≡ folder_of (map string_bytes words.old.items) }
    ensures command { map string_bytes words.new.items ≡ command_of (map string_bytes words.old.items) }
{
    if words.len() < 2 || words[0].as_str() != STATE {
        return None;
    }
    words.remove(0);
    Some(words.remove(0))
}

// The first word that isn't `--`.
fn unescaped(words: &[String]) -> Option<&str>
    ensures { option_map (λ word. word.now) result ≡ unescaped (map string_bytes words.now) }
{
    match words {
        [] => None,
        [word] => Some(word.as_str()),
        [word, next, ..] => {
            if word.as_str() == ESCAPE {
                Some(next.as_str())
            } else {
                Some(word.as_str())
            }
        }
    }
}

/// The folder of a service's documents, where the words are those of a service.
pub fn service_folder(words: &[String]) -> Option<&str>
    ensures { option_map (λ folder. folder.now) result ≡ documents_of (map string_bytes words.now) }
{
    let (first, rest) = words.split_first()?;
    if first.as_str() == SERVICE {
        unescaped(rest)
    } else {
        None
    }
}

/// The folders of a rollout's nodes, or none where the words are no rollout's.
pub fn node_folders(words: &[String]) -> &[String]
    ensures { map string_bytes result.now ≡ nodes_of (map string_bytes words.now) }
{
    if words.len() < 3 || words[0].as_str() != ROLLOUT {
        return &[];
    }
    &words[3..]
}
