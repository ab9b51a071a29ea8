// What goes through the feed.
use sh_map::Call;

/// A call with its number, or the word that none comes after it.
#[derive(Debug, Drop)]
pub enum Job {
    Ask { n: u64, call: Call },
    End,
}
