// A sink in memory, whose room is reserved when it is made.
ghost use Rattle.std.specs.Prelude.{◌≡◌, ◌+◌, ◌^◌, ◌≤◌, ◌<◌, ◌∷◌, [], true, IfOk, length, take, slice_get};
ghost use Rattle.std.specs.Str.{IsUtf8};
ghost use Rattle.outside.specs.Roles.{spans_in};
ghost use Rattle.outside.specs.Spans.{sum_of, length_of, count_of, frame_at, current_in, frames_in, are_texts};
ghost use Rattle.outside.specs.EntryOf.{entry_of};
ghost use Rattle.outside.specs.HeldFrames.{no_frames, naming_call};

use crate::calls::Calls;
use crate::roles::{Role, Span, count, find, push_span};
use crate::{Failed, FrameSink, NoMemory};
use std::alloc::Global;
use std::marker::Model;

/// An entry of a sink: a frame's name, its bytes so far, and whether it has ended.
#[derive(Clone, Copy, Debug, PartialEq, Eq)]
pub struct Entry<'a> {
    pub name: &'a str,
    pub bytes: &'a [u8],
    pub ended: bool,
}

/// A sink in memory, which tells its entries. One of its calls may be named to fail.
///
/// An entry uses the length of its name and one byte more of the room, and a picture its bytes. None of `begin`,
/// `put` and `end` takes memory. The sink takes two bytes of memory for each byte of room.
#[derive(Drop)]
pub struct MemorySink {
    // the ended frames, one behind the other
    store: Vec<u8>,
    // what the bytes of room that they use are used for
    roles: Vec<Role>,
    // where they end
    start: usize,
    // how long the name of the open frame is, which lies behind them with its bytes
    current: Option<usize>,
    left: usize,
    most: usize,
    calls: Calls,
}

impl Model for MemorySink {
    ghost use Rattle.outside.specs.HeldFrames.{HeldFrames};

    ghost Value = { HeldFrames };

    ghost use Rattle.outside.specs.FramesOf.{frames_of, IsKept};

    ghost view = { frames_of };

    ghost invariant = { IsKept };
}

impl MemorySink {
    /// A sink with no entry, with `room` bytes reserved for names and pictures, that takes at most `most` bytes in one
    /// `put`. It must take at least one.
    pub fn new(alloc: Global, room: usize, most: usize) -> Result<Self, NoMemory>
        requires { 1 ≤ most }
        ensures { IfOk result (λ s. s ≡ no_frames room most) }
    {
        let store = Vec::with_capacity(alloc, room)?;
        let roles = Vec::with_capacity(alloc, room)?;
        Ok(MemorySink {
            store,
            roles,
            start: 0,
            current: None,
            left: room,
            most,
            calls: Calls::new(),
        })
    }

    /// Names the nth call of `begin`, `put` and `end` since the sink was made to fail, counted from 1, in the place of
    /// an earlier such name.
    pub fn fail_call(&mut self, n: u64)
        ensures { self.new ≡ naming_call n self.old }
    {
        self.calls.fail_call(n);
    }

    /// How many entries there are, the open one among them.
    pub fn entries(&self) -> usize
        ensures { result ≡ length self.now.written }
    {
        match self.current {
            Some(_) => count(&self.roles) + 1,
            None => count(&self.roles),
        }
    }

    /// The nth entry, counted from 0. There must be one.
    pub fn entry(&self, n: usize) -> Entry<'_>
        requires { n < length self.now.written }
        ensures { slice_get self.now.written n ≡ Some (entry_of result) }
    {
        entry_in(&self.store, &self.roles, self.current, n)
    }
}

// The nth of the entries in the store.
fn entry_in<'a>(store: &'a [u8], roles: &[Role], current: Option<usize>, n: usize) -> Entry<'a>
    requires within { n < length (spans_in roles.now) + count_of current }
    requires stored { sum_of (spans_in roles.now) + length_of current ≤ length store.now }
    requires texts { are_texts (frames_in store.now (spans_in roles.now) current) ≡ true }
    ensures { slice_get (frames_in store.now (spans_in roles.now) current) n ≡ Some (entry_of result) }
{
    let found = find(roles, n);
    let rest = &store[found.start..];
    if let Some(span) = found.span {
        return ended_entry(rest, span);
    }
    match current {
        Some(name) => open_entry(rest, name),
        None => unreachable!(),
    }
}

// These bytes as the text that they are.
fn text(bytes: &[u8]) -> &str
    requires { IsUtf8 bytes.now }
    ensures { result.now ≡ bytes.now }
{
    match str::from_utf8(bytes) {
        Ok(text) => text,
        Err(_) => unreachable!(),
    }
}

// The ended entry at the front of the store.
fn ended_entry<'a>(store: &'a [u8], span: Span) -> Entry<'a>
    requires stored { span.name + span.bytes ≤ length store.now }
    requires text { IsUtf8 (take span.name store.now) }
    ensures { entry_of result ≡ frame_at store.now span }
{
    let (name, rest) = store.split_at(span.name);
    Entry {
        name: text(name),
        bytes: &rest[..span.bytes],
        ended: true,
    }
}

// The open entry that takes the whole store.
fn open_entry<'a>(store: &'a [u8], name: usize) -> Entry<'a>
    requires stored { name ≤ length store.now }
    requires text { IsUtf8 (take name store.now) }
    ensures { entry_of result ∷ [] ≡ current_in store.now (Some name) }
{
    let (name, bytes) = store.split_at(name);
    Entry {
        name: text(name),
        bytes,
        ended: false,
    }
}

impl FrameSink for MemorySink {
    ghost use Rattle.std.specs.Prelude.{Some, ◌++◌, ◌∷◌, [], is_ok, not, false, true, if◌then◌else◌};
    ghost use Rattle.outside.specs.Sink.{Changes, Puts, begun, with_end};
    ghost use Rattle.outside.specs.Causes.{HasCause};
    ghost use Rattle.outside.specs.CallLog.{fails_next};
    ghost use Rattle.outside.specs.HeldFrames.{can_begin, can_put, taken_of, after_begin, after_put, after_end};

    ghost written = { λ s. Some s.written };

    ghost is_open = { λ s. s.is_open };

    ghost faults = { λ s. s.log.faults };

    /// Fails exactly where the call was named to, or the name and one byte more don't fit.
    fn begin(&mut self, name: &str) -> Result<(), Failed>
        requires { self.old.is_open ≡ false }
        ensures written { Changes (λ ws. ws ++ begun name.now ∷ []) result (Some self.old.written) (Some self.new.written) }
        ensures open { self.new.is_open ≡ is_ok result }
        ensures cause { HasCause self.old.log.faults self.new.log.faults result }
        ensures exact { is_ok result ≡ can_begin name.now self.old }
        ensures after { self.new ≡ after_begin name.now result self.old }
    {
        if self.calls.is_failing() {
            return Err(self.calls.fail());
        }
        if name.len() >= self.left {
            return Err(self.calls.fail());
        }
        let Ok(()) = self.store.extend_from_slice(name.as_bytes()) else {
            unreachable!()
        };
        self.left -= name.len() + 1;
        self.current = Some(name.len());
        Ok(())
    }

    /// Fails exactly where the call was named to, or no byte of room is left, and then takes nothing.
    fn put(&mut self, piece: &[u8]) -> Result<usize, Failed>
        requires open { self.old.is_open ≡ true }
        requires some { 0 < length piece.now }
        ensures written { Puts piece.now result (Some self.old.written) (Some self.new.written) }
        ensures open { self.new.is_open ≡ true }
        ensures cause { HasCause self.old.log.faults self.new.log.faults result }
        ensures exact { is_ok result ≡ can_put self.old }
        ensures taken { IfOk result (λ n. n ≡ taken_of piece.now self.old) }
        ensures after { self.new ≡ after_put piece.now result self.old }
    {
        if self.calls.is_failing() {
            return Err(self.calls.fail());
        }
        let taken = piece.len().min(self.most).min(self.left);
        if taken == 0 {
            return Err(self.calls.fail());
        }
        let Ok(()) = self.store.extend_from_slice(&piece[..taken]) else {
            unreachable!()
        };
        self.left -= taken;
        Ok(taken)
    }

    /// Fails exactly where the call was named to.
    fn end(&mut self) -> Result<(), Failed>
        requires { self.old.is_open ≡ true }
        ensures written { Changes with_end result (Some self.old.written) (Some self.new.written) }
        ensures open { self.new.is_open ≡ (if is_ok result then false else true) }
        ensures cause { HasCause self.old.log.faults self.new.log.faults result }
        ensures exact { is_ok result ≡ not (fails_next self.old.log) }
        ensures after { self.new ≡ after_end result self.old }
    {
        if self.calls.is_failing() {
            return Err(self.calls.fail());
        }
        let Some(name) = self.current else {
            unreachable!()
        };
        let bytes = self.store.len() - self.start - name;
        push_span(&mut self.roles, Span { name, bytes });
        self.start = self.store.len();
        self.current = None;
        Ok(())
    }
}
