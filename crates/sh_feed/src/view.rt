// What a token of the feed knows, for contracts alone: no value of these types is made.
use crate::job::Job;
use sh_base::ConfigParts;
use std::collections::LinkedList;

/// What a feed was started with: the numbers of its setting, and how many takers.
pub struct Setup {
    pub parts: ConfigParts,
    pub takers: u64,
}

/// The feed's setup, for how many tokens it stands, whether it gives, what it gave, what it took, and what the takers
/// took that were put together with it, in order.
pub struct View {
    pub setup: Option<Setup>,
    pub parts: u64,
    pub gives: u64,
    pub gave: LinkedList<Job>,
    pub took: LinkedList<Job>,
    pub others: LinkedList<LinkedList<Job>>,
}
