// The files and arguments that programs read, and a line on standard error.
//
// What is assumed, and nothing proves, is what the kit says of the system's calls, which std makes: each returns and touches nothing but
// what it is lent, and a read answers an error or a count of at most the bytes that it was lent. No contract says what bytes a file or an
// argument holds. The last lines of a program's check count the contracts that come with std's files, which are more than the program's
// calls, and name the first of them.
#![tactic(auto)]

ghost use Rattle.io.specs.Counts.{IsPrefixLen};
ghost use Rattle.files.specs.Answer.{Answered};

use std::env::{Env, FillError};
use std::fs::{self, Files};
use std::io::{Read, Write};
use std::str::from_utf8;

// One read to the start of `space`. Answers how many bytes it gave; one that fails gives none.
fn read_some<F: Read>(file: &mut F, space: &mut [u8]) -> usize
    ensures { IsPrefixLen result space.new }
{
    file.read(space).unwrap_or(0)
}

// Reads to the start of `space` until the file ends, a read fails or the space is full, and answers how many bytes that is.
fn fill<F: Read>(file: &mut F, space: &mut [u8]) -> usize
    ensures { IsPrefixLen result space.new }
{
    // A `while`, for a turn goes as far as its read gave.
    let mut done = 0;
    while done < space.len() {
        let more = read_some(file, &mut space[done..]);
        if more == 0 {
            return done;
        }
        done += more;
    }
    done
}

// Reads a file from its start, as far as `space` goes, and answers how many bytes that is. One that cannot be opened, or whose path is no
// UTF-8, is missing: None, and `space` is kept.
pub fn read_file<R: Files>(rt: &R, path: &[u8], space: &mut [u8]) -> Option<usize>
    ensures { Answered result space.old space.new }
{
    let path = from_utf8(path).ok()?;
    let mut file = fs::open(rt, path).ok()?;
    Some(fill(&mut file, space))
}

// Reads a file likewise, where a missing one counts as empty, and answers how many bytes that is.
pub fn read_or_empty<R: Files>(rt: &R, path: &[u8], space: &mut [u8]) -> usize
    ensures { IsPrefixLen result space.new }
{
    read_file(rt, path, space).unwrap_or(0)
}

// Reads an argument of the program, where argument 0 is its own name, and answers how many bytes it has; None, and `space` is kept, where
// there is no such argument. One that is longer than `space` counts as empty.
pub fn argument<R: Env>(rt: &R, k: usize, space: &mut [u8]) -> Option<usize>
    ensures { Answered result space.old space.new }
{
    // Asked with no space: whether there is such an argument.
    if let Err(FillError::NotPresent) = rt.arg(k, &mut []) {
        return None;
    }
    Some(rt.arg(k, space).unwrap_or(0))
}

// Writes a line to standard error: what it is about, and what is wrong with it. What cannot be written there is let go.
pub fn complain(rt: &HostRuntime, name: &[u8], wrong: &[u8]) {
    let mut to = rt.stderr();
    let _ = to.write_all(name);
    let _ = to.write_all(b": ");
    let _ = to.write_all(wrong);
    let _ = to.write_all(b"\n");
}
