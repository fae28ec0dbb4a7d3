// What a worker of a forall begins with, and what it hands back when its turns are over. What it hands back has no lifetime.

use crate::parts::Part;
use dpl_frame::{Frame, PlainWords, Share, Shares};
use dpl_loop::RunStop;

// A locale's part of a loop, and the frame in which its turns are made.
#[derive(Drop)]
pub(crate) struct Job<'w> {
    pub(crate) locale: u32,
    pub(crate) part: &'w Part,
    pub(crate) frame: Frame<Shares<'w>>,
}

// How the turns ended, and what they left.
#[derive(Drop)]
pub(crate) struct Worked {
    pub(crate) locale: u32,
    pub(crate) words: PlainWords,
    pub(crate) own: Vec<Share>,
    pub(crate) end: Result<(), RunStop>,
}
