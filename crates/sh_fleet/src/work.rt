// What a seat has to do, and how far it is.
use crate::answers::Answers;
use sh_base::Config;
use sh_pool::{Pass, Pool};
use sh_sheet::Item;

/// Where an item stands among the sheet's, and the number of its call, or of the next one behind it.
#[derive(Clone, Copy, Debug)]
pub struct Place {
    pub(crate) at: usize,
    pub(crate) n: u32,
}

/// A seat's pass, the places of its items, how many of them were served, and what their calls were answered.
#[derive(Drop)]
pub struct Work {
    pub(crate) pass: Pass,
    pub(crate) places: Vec<Place>,
    pub(crate) next: usize,
    pub(crate) answers: Answers,
}

/// What all seats share: the setting, the pool and the sheet's items.
#[derive(Clone, Copy)]
pub struct Floor<'a> {
    pub(crate) cfg: &'a Config,
    pub(crate) pool: &'a Pool,
    pub(crate) items: &'a [Item],
}
