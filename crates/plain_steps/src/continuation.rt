// What a process has left, kept as a stack above a list that states share.

ghost use Rattle.std.specs.Prelude.{◌≡◌, ◌≤◌, ◌<◌, ◌+◌, [], ◌∷◌, IfOk, drop, length, slice_get, vec_len, vec_capacity};
ghost use Rattle.std.specs.Cmp.Lexicographic.{pointwise};
ghost use Rattle.vmodel.specs.Same.{frame_same};
ghost use Rattle.vmodel.specs.Step.{frames};
ghost use Rattle.plain_steps.specs.InnerContinuation.{IsWhole, stack, continuation_frames};
ghost use Rattle.vmodel.specs.InnerStep.{behind};

use crate::process::put_frames;
use basis::NoMemory;
use std::alloc::Global;
use std::sync::ArcSlice;
use vmodel::frame::Frame;

/// What a process has left. The first frame stands last.
#[derive(Drop)]
pub(crate) struct Continuation {
    // The frames that it began with. They never change, and the states of a run share them.
    pub(crate) base: ArcSlice<Frame>,
    // How many of those are left: the front of them.
    pub(crate) kept: usize,
    // What stands above them.
    pub(crate) own: Vec<Frame>,
}

impl Continuation {
    // What is left of a process that begins at these places.
    pub(crate) fn at(alloc: Global, places: &[usize]) -> Result<Continuation, NoMemory>
        ensures whole { IfOk result IsWhole }
        ensures value { IfOk result (λ continuation. continuation_frames continuation ≡ frames places.now []) }
    {
        let mut list = Vec::new(alloc);
        list.reserve(places.len())?;
        put_frames(&mut list, places);
        let kept = list.len();
        let base = ArcSlice::from_vec(list)?;
        let own = Vec::new(alloc);
        Ok(Continuation { base, kept, own })
    }

    // The same is left. The frames of the beginning aren't copied: one more owner of them is counted, in one atomic step, and
    // refused only where 2^63 - 1 are counted already.
    pub(crate) fn copy(&self, alloc: Global) -> Result<Continuation, NoMemory>
        requires { IsWhole self.now }
        ensures whole { IfOk result IsWhole }
        ensures value { IfOk result (λ continuation. continuation_frames continuation ≡ continuation_frames self.now) }
    {
        let base = self.base.clone()?;
        let own = Vec::from_slice(alloc, &self.own)?;
        let kept = self.kept;
        Ok(Continuation { base, kept, own })
    }

    // How many frames are left.
    pub(crate) fn len(&self) -> usize
        requires { IsWhole self.now }
        ensures { result ≡ length (continuation_frames self.now) }
    {
        let _within = self.base.len();
        self.kept + self.own.len()
    }

    // The frame that stands there, counted from the last one to come.
    fn at_depth(&self, depth: usize) -> Frame
        requires whole { IsWhole self.now }
        requires within { depth < length (stack self.now) }
        ensures { slice_get (stack self.now) depth ≡ Some result }
    {
        if depth < self.kept {
            self.base.as_slice()[depth]
        } else {
            self.own[depth - self.kept]
        }
    }

    // The first, if something is left.
    pub(crate) fn first(&self) -> Option<Frame>
        requires { IsWhole self.now }
        ensures { result ≡ slice_get (continuation_frames self.now) 0 }
    {
        let len = self.len();
        if len == 0 {
            None
        } else {
            Some(self.at_depth(len - 1))
        }
    }

    // Whether the same is left.
    pub(crate) fn is_like(&self, other: &Continuation) -> bool
        requires whole { IsWhole self.now }
        requires other { IsWhole other.now }
        ensures { result ≡ pointwise frame_same (continuation_frames self.now) (continuation_frames other.now) }
    {
        if self.kept == other.kept {
            self.has_like_parts(other)
        } else {
            self.is_like_frame_by_frame(other)
        }
    }

    // The same, where as much of the beginning is left in both, as in nearly all states that are alike: two slices are compared.
    fn has_like_parts(&self, other: &Continuation) -> bool
        requires whole { IsWhole self.now }
        requires other { IsWhole other.now }
        requires kept { self.now.kept ≡ other.now.kept }
        ensures { result ≡ pointwise frame_same (continuation_frames self.now) (continuation_frames other.now) }
    {
        let front = self.base.as_slice().split_at(self.kept).0;
        let like = other.base.as_slice().split_at(other.kept).0;
        front == like && self.own == other.own
    }

    // The same, however much is left.
    fn is_like_frame_by_frame(&self, other: &Continuation) -> bool
        requires whole { IsWhole self.now }
        requires other { IsWhole other.now }
        ensures { result ≡ pointwise frame_same (continuation_frames self.now) (continuation_frames other.now) }
    {
        let len = self.len();
        if other.len() != len {
            return false;
        }
        let mut depth = 0;
        while depth < len {
            if self.at_depth(depth) != other.at_depth(depth) {
                return false;
            }
            depth += 1;
        }
        true
    }

    // The first is done.
    fn go(&mut self)
        requires whole { IsWhole self.old }
        requires some { 0 < length (continuation_frames self.old) }
        ensures whole { IsWhole self.new }
        ensures value { continuation_frames self.new ≡ drop 1 (continuation_frames self.old) }
        ensures room { vec_len self.new.own ≤ vec_len self.old.own }
        ensures capacity { vec_capacity self.new.own ≡ vec_capacity self.old.own }
    {
        if self.own.pop().is_none() {
            self.kept -= 1;
        }
    }

    // This frame comes first. There is room for it.
    fn put(&mut self, frame: Frame)
        requires whole { IsWhole self.old }
        requires room { vec_len self.old.own < vec_capacity self.old.own }
        ensures whole { IsWhole self.new }
        ensures value { continuation_frames self.new ≡ frame ∷ continuation_frames self.old }
        ensures room { vec_len self.new.own ≤ vec_len self.old.own + 1 }
        ensures capacity { vec_capacity self.new.own ≡ vec_capacity self.old.own }
    {
        self.own.push_reserved(frame);
    }

    // The first is done, and this frame comes first, where one is given. There is room for it.
    fn change(&mut self, then: Option<Frame>)
        requires whole { IsWhole self.old }
        requires some { 0 < length (continuation_frames self.old) }
        requires room { vec_len self.old.own < vec_capacity self.old.own }
        ensures whole { IsWhole self.new }
        ensures value { continuation_frames self.new ≡ behind then (drop 1 (continuation_frames self.old)) }
        ensures room { vec_len self.new.own ≤ vec_len self.old.own + 1 }
        ensures capacity { vec_capacity self.new.own ≡ vec_capacity self.old.own }
    {
        self.go();
        match then {
            None => {}
            Some(frame) => self.put(frame),
        }
    }

    // These places come first. There is room for them.
    fn put_places(&mut self, places: &[usize])
        requires whole { IsWhole self.old }
        requires room { vec_len self.old.own + length places.now ≤ vec_capacity self.old.own }
        ensures whole { IsWhole self.new }
        ensures value { continuation_frames self.new ≡ frames places.now (continuation_frames self.old) }
    {
        put_frames(&mut self.own, places);
    }

    // The first is done, and these places come next, and behind them this frame, where one is given. There is room for all.
    pub(crate) fn advance(&mut self, then: Option<Frame>, places: &[usize])
        requires whole { IsWhole self.old }
        requires some { 0 < length (continuation_frames self.old) }
        requires room { vec_len self.old.own + (length places.now + 1)
            ≤ vec_capacity self.old.own }
        ensures whole { IsWhole self.new }
        ensures value { continuation_frames self.new
            ≡ frames places.now (behind then (drop 1 (continuation_frames self.old))) }
    {
        self.change(then);
        self.put_places(places);
    }
}
