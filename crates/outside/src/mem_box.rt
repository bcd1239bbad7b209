//! A box of files in memory, whose calls fail where a list says so.

ghost use Rattle.std.specs.Prelude.{◌≡◌, [], ◌∷◌, ◌++◌, is_err, Some, None, IfOk, OnOk, OnErr, IsTrue, IsErr, ◌↔◌, ◌≤◌, ◌+◌, ◌-◌, ◌^◌, ◌<◌, min, length, take, IfSome, ℕ, List, ◌≢◌, nat_eq, IsOk, vec_len, vec_capacity, if◌then◌else◌};
ghost use Rattle.std.specs.List.{list_any};
ghost use Rattle.std.specs.Ordering.{nat_cmp};
ghost use Rattle.std.specs.Cmp.Lexicographic.{slice_cmp};
ghost use Rattle.std.specs.FinMap as map;
ghost use Rattle.std.specs.Option.{option_copied, option_map};
ghost use Rattle.outside.specs.Calls.{Fetch, Has, Store, file_call};
ghost use Rattle.outside.specs.Causes.{HasCause};
ghost use Rattle.outside.specs.Files.{fetch_of, fetched, IsWithinLimit, FetchHasCause, Stores, holds, is_failed, IsFailed};
ghost use Rattle.outside.specs.MemBox.{has_room, next_number};
ghost use Rattle.outside.specs.ReadsAlone.{ReadsAlone};

use crate::calls::{Calls, NewCall};
use crate::files::{Failed, FetchFault, Fetched, FileBox, count_failure};
use ctl_base::{ByteText, Memory, TextArg};
use std::alloc::Global;
use std::marker::Model;

// The memory for one store of a name.
#[derive(Drop)]
struct Room {
    name: TextArg,
    bytes: Vec<u8>,
    most: u64,
}

/// Files in memory, for tests. The calls of `FileBox` are counted from 1, and those whose numbers
/// stand in a list fail. A store needs room that was taken for it.
#[derive(Drop)]
pub struct MemBox {
    files: Vec<(TextArg, ByteText)>,
    failing: Vec<u32>,
    torn: u32,
    calls: u32,
    asked: Calls,
    faults: u64,
    lost: u64,
    room: Option<Room>,
}

impl Model for MemBox {
    ghost use Rattle.outside.specs.MemBox.{BoxState};
    ghost use Rattle.outside.specs.Codes.{coded_state};

    ghost Value = { BoxState };

    ghost coded = { coded_state };

    ghost use Rattle.outside.specs.Inside.{view_of, IsReady};

    ghost view = { view_of };

    ghost invariant = { IsReady };
}

impl MemBox {
    ghost use Rattle.outside.specs.MemBox.{Serves};

    /// A box that holds nothing and has no room. The calls with the numbers in `failing` fail, and a
    /// store that fails leaves the first `torn` bytes.
    pub fn new(failing: Vec<u32>, torn: u32) -> MemBox
        ensures { result ≡ record { held = map.empty; asked = []; faults = 0; lost = 0; failing = failing.items; torn = torn; room = None } }
    {
        let alloc = *failing.allocator();
        MemBox {
            files: Vec::new(alloc),
            failing,
            torn,
            calls: 0,
            asked: Calls::new(),
            faults: 0,
            lost: 0,
            room: None,
        }
    }

    /// Makes the name hold the bytes. This is no counted call.
    pub fn put(&mut self, name: &str, bytes: &[u8]) -> Result<(), Memory>
        ensures ok { OnOk result (self.new ≡ record self.old { held = map.insert self.old.held name.now bytes.now }) }
        ensures err { OnErr result (self.new ≡ self.old) }
    {
        let alloc = *self.failing.allocator();
        let entry = (TextArg::new(alloc, name)?, ByteText::new(alloc, bytes)?);
        self.files.reserve(2)?;
        self.files.insert(0, entry)?;
        Ok(())
    }

    /// Takes the memory for one store of at most so many bytes under the name, in place of any
    /// earlier room. This is no counted call.
    pub fn room(&mut self, name: &str, bytes: u64) -> Result<(), Memory>
        ensures ok { OnOk result (self.new ≡ record self.old { room = Some (name.now, bytes) }) }
        ensures err { OnErr result (self.new ≡ self.old) }
    {
        let alloc = *self.failing.allocator();
        let room = Room {
            name: TextArg::new(alloc, name)?,
            bytes: Vec::with_capacity(alloc, bytes as usize)?,
            most: bytes,
        };
        self.files.reserve(1)?;
        self.room = Some(room);
        Ok(())
    }

    /// How many calls were made. The count stops at 2^32 - 1.
    pub fn calls(&self) -> u32
        ensures { result ≡ min (length self.now.asked) (2 ^ 32 - 1) }
    {
        self.calls
    }

    /// The bytes that the name holds. This is no counted call.
    #[tactic(auto, using(crate::proofs::Keys::get_held))]
    pub fn held(&self, name: &str) -> Option<&[u8]>
        ensures { option_copied result ≡ map.get self.now.held name.now }
    {
        let Some(bytes) = find(&self.files, name) else {
            return None;
        };
        Some(bytes.as_slice())
    }

    /// Whether no call fails from here on, where one store follows, of at most so many bytes under
    /// the name: nothing is listed as failing, and there is room for as many bytes.
    pub fn will_serve(&self, name: &str, bytes: u64) -> bool
        ensures { IsTrue result ↔ Serves self.now name.now bytes }
    {
        self.failing.is_empty() && suffices(&self.room, name, bytes)
    }
}

// What the name holds: the newest entry counts.
fn find<'a>(files: &'a [(TextArg, ByteText)], name: &str) -> Option<&'a ByteText>
    ensures { option_copied result ≡ map.find (slice_cmp nat_cmp) name.now files.now }
{
    for (held, bytes) in files {
        if held.as_str() == name {
            return Some(bytes);
        }
    }
    None
}

// What a fetch finds of the bytes that a name holds.
fn found_within(alloc: Global, held: Option<&ByteText>, limit: u64) -> Result<Fetched, Memory>
    ensures answer { IfOk result (λ got. got ≡ fetched (option_copied held.entry) limit) }
    ensures within { IfOk result (IsWithinLimit limit) }
{
    let Some(bytes) = held else {
        return Ok(Fetched::Absent);
    };
    if bytes.as_slice().len() as u64 > limit {
        return Ok(Fetched::TooLong { limit });
    }
    Ok(Fetched::Bytes(bytes.copy(alloc)?))
}

// Counts a call after those that were made, and says whether it fails.
fn count_call(calls: &mut u32, _made: &Calls, failing: &[u32]) -> bool
    requires { calls.old ≡ min (length _made.now.all) (2 ^ 32 - 1) }
    ensures next { calls.new ≡ next_number (length _made.now.all) }
    ensures fails { result ≡ list_any (λ n. nat_eq n (next_number (length _made.now.all))) failing.now }
{
    *calls = calls.saturating_add(1);
    failing.contains(calls)
}

impl FileBox for MemBox {
    ghost use Rattle.outside.specs.MemBox.{fails_next, looked, stored, store_fails, Serves};

    ghost held = { λ b. Some b.held };

    ghost asked = { λ b. b.asked };

    ghost faults = { λ b. b.faults };

    ghost lost = { λ b. b.lost };

    ghost serves = { Serves };

    /// Fails exactly where the number of the call is listed.
    #[tactic(auto, using(crate::proofs::Keys::get_held))]
    fn fetch(&mut self, alloc: Global, name: &str, limit: u64) -> Result<Fetched, FetchFault>
        ensures reads { ReadsAlone (λ b. Some b.held) (λ b. b.lost) Serves self.old self.new }
        ensures asks { self.new.asked ≡ self.old.asked ++ file_call Fetch name.now (is_failed result) ∷ [] }
        ensures cause { FetchHasCause self.old.faults self.new.faults result }
        ensures within { IfOk result (IsWithinLimit limit) }
        ensures answer { IfOk result (λ got. IfSome (Some self.old.held) (λ files. got ≡ fetch_of files name.now limit)) }
        ensures served { (to : List ℕ) (n : ℕ) → Serves self.old to n → result ≢ Err FetchFault.Failed }
        ensures after { self.new ≡ looked self.old Fetch name.now }
        ensures fails { IsFailed result ↔ IsTrue (fails_next self.old) }
    {
        let fails = count_call(&mut self.calls, &self.asked, &self.failing);
        self.asked = self.asked.with(&NewCall::Fetch(name, fails));
        if fails {
            return Err(FetchFault::from(count_failure(&mut self.faults)));
        }
        let got = found_within(alloc, find(&self.files, name), limit)?;
        Ok(got)
    }

    /// Fails exactly where the number of the call is listed. Takes no memory.
    #[tactic(auto, using(crate::proofs::Keys::get_held))]
    fn has(&mut self, name: &str) -> Result<bool, Failed>
        ensures reads { ReadsAlone (λ b. Some b.held) (λ b. b.lost) Serves self.old self.new }
        ensures asks { self.new.asked ≡ self.old.asked ++ file_call Has name.now (is_err result) ∷ [] }
        ensures cause { HasCause self.old.faults self.new.faults result }
        ensures answer { IfOk result (λ yes. IfSome (Some self.old.held) (λ files. yes ≡ holds files name.now)) }
        ensures served { (to : List ℕ) (n : ℕ) → Serves self.old to n → IsOk result }
        ensures after { self.new ≡ looked self.old Has name.now }
        ensures fails { IsErr result ↔ IsTrue (fails_next self.old) }
    {
        let fails = count_call(&mut self.calls, &self.asked, &self.failing);
        self.asked = self.asked.with(&NewCall::Has(name, fails));
        if fails {
            return Err(count_failure(&mut self.faults));
        }
        Ok(find(&self.files, name).is_some())
    }

    /// Fails exactly where the number of the call is listed or there is no sufficient room for the
    /// name. Where the room suffices it is used up, and a failing call leaves the first `torn` bytes,
    /// or all of them where there are fewer. Takes no memory.
    fn store(&mut self, name: &str, bytes: &[u8]) -> Result<(), Failed>
        ensures asks { self.new.asked ≡ self.old.asked ++ file_call Store name.now (is_err result) ∷ [] }
        ensures faults_stay { self.new.faults ≡ self.old.faults }
        ensures cause { HasCause self.old.lost self.new.lost result }
        ensures stored { Stores (Some self.old.held) (Some self.new.held) name.now bytes.now result }
        ensures served { (n : ℕ) → Serves self.old name.now n → length bytes.now ≤ n → IsOk result }
        ensures after { self.new ≡ stored self.old name.now bytes.now }
        ensures fails { IsErr result ↔ IsTrue (store_fails self.old name.now (length bytes.now)) }
    {
        let fails = count_call(&mut self.calls, &self.asked, &self.failing);
        if !suffices(&self.room, name, bytes.len() as u64) {
            self.asked = self.asked.with(&NewCall::Store(name, true));
            return Err(count_failure(&mut self.lost));
        }
        self.asked = self.asked.with(&NewCall::Store(name, fails));
        let kept = kept(bytes, self.torn, fails);
        let Some(
            Room {
                name: to,
                bytes: space,
                most: _,
            },
        ) = self.room.take()
        else {
            unreachable!()
        };
        fill(&mut self.files, to, space, kept);
        if fails {
            return Err(count_failure(&mut self.lost));
        }
        Ok(())
    }
}

// Whether there is room to store so many bytes under the name.
fn suffices(room: &Option<Room>, name: &str, len: u64) -> bool
    ensures { result ≡ has_room (option_map (λ r. (r.name, r.most)) room.now) name.now len }
{
    match room {
        None => false,
        Some(room) => name == room.name.as_str() && len <= room.most,
    }
}

// The part of the bytes that a store leaves.
fn kept(bytes: &[u8], torn: u32, fails: bool) -> &[u8]
    ensures { result.now ≡ (if fails then take torn bytes.now else bytes.now) }
{
    let torn = torn as usize;
    if fails && torn < bytes.len() {
        &bytes[..torn]
    } else {
        bytes
    }
}

// Puts the bytes under the name, in memory that is there already.
fn fill(files: &mut Vec<(TextArg, ByteText)>, name: TextArg, mut space: Vec<u8>, bytes: &[u8])
    requires place { vec_len files.old < vec_capacity files.old }
    requires empty { vec_len space ≡ 0 }
    requires space { length bytes.now ≤ vec_capacity space }
    ensures { files.new.items ≡ (name, bytes.now) ∷ files.old.items }
{
    match space.extend_from_slice(bytes) {
        Ok(()) => {}
        Err(_) => unreachable!(),
    }
    match files.insert(0, (name, ByteText::from_vec(space))) {
        Ok(()) => {}
        Err(_) => unreachable!(),
    }
}
