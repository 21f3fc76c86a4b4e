//! Files in memory, whose failures are chosen by the number of the call.
ghost use Rattle.std.specs.Prelude.{if◌then◌else◌, is_ok, not, false, Some, ◌≡◌, ℕ, ◌+◌, ◌-◌, ◌^◌, ◌≤◌, ◌==◌, ◌&&◌, ◌||◌, ◌++◌, nat_lt, min, take, drop, [], length, unwrap_or, is_some, option_copied, MatchResult, IsTrue, IsFalse, IfOk, OnOk, OnErr, None};
ghost use Rattle.sk_base.specs.Causes.{Rose, NeverFalls, HasCause};
ghost use Rattle.sk_base.specs.Files.{Selects, Pulls};
ghost use Rattle.sk_base.specs.MemFiles.{place_held, bytes_held, bytes_left, is_reliable, is_to_fail, folder_of, IsHeldToo};

use crate::std_files::has_ended;
use crate::{Failed, Files, NoMemory};
use std::alloc::Global;

#[derive(Drop)]
struct HeldFile {
    name: String,
    bytes: Vec<u8>,
}

/// Which calls are to fail, by their numbers from 1 on.
#[derive(Drop)]
struct Script {
    calls: u64,
    failing: Vec<u64>,
    faults: u64,
}

impl Script {
    /// Counts a call, and says whether it is to fail.
    fn next_fails(&mut self) -> bool
        ensures value { result ≡ is_to_fail self.old.failing.items self.new.calls }
        ensures calls { self.new.calls ≡ min (self.old.calls + 1) (2 ^ 64 - 1) }
        ensures reliable { IsTrue (is_reliable self.old.failing.items) → IsFalse result }
        ensures failing { self.new.failing ≡ self.old.failing }
        ensures faults { self.new.faults ≡ self.old.faults }
    {
        self.calls = self.calls.saturating_add(1);
        self.failing.contains(&self.calls)
    }

    /// Counts a fault.
    fn fail(&mut self) -> Failed
        ensures failing { self.new.failing ≡ self.old.failing }
        ensures calls { self.new.calls ≡ self.old.calls }
        ensures faults { self.new.faults ≡ min (self.old.faults + 1) (2 ^ 64 - 1) }
        ensures count { NeverFalls self.old.faults self.new.faults }
        ensures rose { Rose self.old.faults self.new.faults }
    {
        self.faults = self.faults.saturating_add(1);
        Failed
    }
}

/// Files that were put there by `hold`.
#[derive(Drop)]
pub struct MemFiles {
    alloc: Global,
    held: Vec<HeldFile>,
    selected: Option<usize>,
    turns: u64,
    taken: usize,
    given: u64,
    ended: bool,
    script: Script,
    ghost within: { taken ≤ length (unwrap_or (bytes_held held.items selected) []) },
}

/// Where the file of this name is held.
fn place_of_name(held: &[HeldFile], name: &str) -> Option<usize>
    ensures { result ≡ place_held held.now name.now }
{
    held.iter().position(|file| file.name.as_str() == name)
}

/// The bytes of the file that is held there, none where there is no such file.
fn bytes_at(held: &[HeldFile], place: Option<usize>) -> &[u8]
    ensures { result.now ≡ unwrap_or (bytes_held held.now place) [] }
{
    match place {
        Some(at) => match held.get(at) {
            Some(file) => file.bytes.as_slice(),
            None => &[],
        },
        None => &[],
    }
}

/// Moves as many bytes as fit to the front of the room.
fn move_front(bytes: &[u8], room: &mut [u8]) -> usize
    ensures count { result ≡ min (length bytes.now) (length room.new) }
    ensures moved { take result room.new ≡ take result bytes.now }
{
    let count = bytes.len().min(room.len());
    room[..count].copy_from_slice(&bytes[..count]);
    count
}

impl MemFiles {
    ghost use Rattle.sk_base.specs.MemFilesParts.{files_held, calls_made, calls_failing, calls_failed, selection_of};

    /// No files yet. The calls of `select` and `pull` are numbered together from 1, and those listed are to fail.
    pub fn new(alloc: Global, failing: &[u64]) -> Result<MemFiles, NoMemory>
        ensures held { IfOk result (λ files. files_held files ≡ []) }
        ensures calls { IfOk result (λ files. calls_made files ≡ 0) }
        ensures failing { IfOk result (λ files. calls_failing files ≡ failing.now) }
        ensures faults { IfOk result (λ files. calls_failed files ≡ 0) }
        ensures selection { IfOk result (λ files. ((selection_of files).left ≡ None) × ((selection_of files).given ≡ 0) × ((selection_of files).ended ≡ false)) }
        ensures turns { IfOk result (λ files. (selection_of files).turns ≡ 0) }
    {
        Ok(MemFiles {
            alloc,
            held: Vec::new(alloc),
            selected: None,
            turns: 0,
            taken: 0,
            given: 0,
            ended: false,
            script: Script {
                calls: 0,
                failing: Vec::from_slice(alloc, failing)?,
                faults: 0,
            },
        })
    }

    /// Puts a file there, whose name isn't held. A selected file is let go. Where memory is refused, nothing changes.
    pub fn hold(&mut self, name: &str, bytes: &[u8]) -> Result<(), NoMemory>
        requires { place_held (files_held self.old) name.now ≡ None }
        ensures ok { OnOk result (IsHeldToo (files_held self.old) name.now bytes.now (files_held self.new)) }
        ensures err { OnErr result (files_held self.new ≡ files_held self.old) }
        ensures selection { MatchResult result (λ _. (selection_of self.new).left ≡ None) (λ _. (selection_of self.new).left ≡ (selection_of self.old).left) }
        ensures given { (selection_of self.new).given ≡ (selection_of self.old).given }
        ensures ended { (selection_of self.new).ended ≡ (selection_of self.old).ended }
        ensures turns { (selection_of self.new).turns ≡ (selection_of self.old).turns }
        ensures script { self.new.script ≡ self.old.script }
    {
        let file = HeldFile {
            name: String::from_str(self.alloc, name)?,
            bytes: Vec::from_slice(self.alloc, bytes)?,
        };
        self.held.reserve(1)?;
        self.selected = None;
        self.taken = 0;
        self.held.push(file).unwrap();
        Ok(())
    }
}

impl Files for MemFiles {
    ghost use Rattle.std.specs.Prelude.{◌≡◌, ℕ, ◌≤◌, List, [], length};
    ghost use Rattle.sk_base.specs.MemFiles.{folder_of};
    ghost use Rattle.sk_base.specs.MemFilesParts.{files_held, calls_made, calls_failing, calls_failed, selection_of};

    ghost folder = { λ files. folder_of files.held.items files.script.failing.items };

    ghost selection = { λ files. selection_of files };

    ghost faults = { λ files. calls_failed files };

    /// Turns to a file that is held, unless the number of the call says that it fails.
    fn select(&mut self, name: &str) -> Result<(), Failed>
        ensures folder { folder_of (files_held self.new) (calls_failing self.new) ≡ folder_of (files_held self.old) (calls_failing self.old) }
        ensures selects { Selects (folder_of (files_held self.old) (calls_failing self.old)) name.now (selection_of self.old) (selection_of self.new) result }
        ensures cause { HasCause (calls_failed self.old) (calls_failed self.new) result }

        // It fails at a number that is to fail, and at a name that isn't held.
        ensures calls { calls_made self.new ≡ min (calls_made self.old + 1) (2 ^ 64 - 1) }
        ensures answer { is_ok result ≡ (not (is_to_fail (calls_failing self.old) (calls_made self.new)) && is_some (place_held (files_held self.old) name.now)) }
        ensures held { files_held self.new ≡ files_held self.old }
        ensures failing { calls_failing self.new ≡ calls_failing self.old }
        ensures faults { calls_failed self.new ≡ (if is_ok result then calls_failed self.old else min (calls_failed self.old + 1) (2 ^ 64 - 1)) }
    {
        self.turns = self.turns.saturating_add(1);
        self.taken = 0;
        self.selected = None;
        self.given = 0;
        self.ended = false;
        if self.script.next_fails() {
            return Err(self.script.fail());
        }
        match place_of_name(self.held.as_slice(), name) {
            Some(place) => {
                self.selected = Some(place);
                Ok(())
            }
            None => Err(self.script.fail()),
        }
    }

    /// Moves as many bytes as are left and fit, unless the number of the call says that it fails.
    fn pull(&mut self, room: &mut [u8]) -> Result<usize, Failed>
        ensures folder { folder_of (files_held self.new) (calls_failing self.new) ≡ folder_of (files_held self.old) (calls_failing self.old) }
        ensures pulls { Pulls (selection_of self.old) (selection_of self.new) room.new result }
        ensures cause { HasCause (calls_failed self.old) (calls_failed self.new) result }

        // It fails at a number that is to fail.
        ensures calls { calls_made self.new ≡ min (calls_made self.old + 1) (2 ^ 64 - 1) }
        ensures answer { is_ok result ≡ not (is_to_fail (calls_failing self.old) (calls_made self.new)) }
        ensures gives { IfOk result (λ count. count ≡ min (length (unwrap_or (selection_of self.old).left [])) (length room.new)) }
        ensures held { files_held self.new ≡ files_held self.old }
        ensures failing { calls_failing self.new ≡ calls_failing self.old }
        ensures faults { calls_failed self.new ≡ (if is_ok result then calls_failed self.old else min (calls_failed self.old + 1) (2 ^ 64 - 1)) }
    {
        if self.script.next_fails() {
            return Err(self.script.fail());
        }
        let left = &bytes_at(self.held.as_slice(), self.selected)[self.taken..];
        let count = move_front(left, room);
        self.taken += count;
        self.given = self.given.saturating_add(count as u64);
        self.ended = has_ended(self.ended, count, room.len());
        Ok(count)
    }
}
