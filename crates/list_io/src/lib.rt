// The listing from standard input to standard output. No contract can say which bytes a call of the system's reads or writes.
#![tactic(auto)]

ghost use Rattle.std.specs.Prelude.{◌≤◌, length, IfOk};
ghost use Rattle.words.specs.Words.{Bytes};
ghost use Rattle.list_io.specs.Printed.{Printed};

use list_chunks::{LIST_INPUT, LIST_MOST};
use std::io;
use std::io::{ErrorKind, Read, Stdin, Write};

// How often a read that a signal interrupts is tried again.
const RETRIES: usize = 64;

// One read, tried again where a signal interrupts it; 0 bytes at the end of the input.
fn read_some(from: &mut Stdin, room: &mut [u8]) -> io::Result<usize>
    ensures { IfOk result (λ n. n ≤ length room.new) }
{
    for _ in 0..RETRIES {
        match from.read(room) {
            Err(e) if e.kind() == ErrorKind::Interrupted => {}
            done => return done,
        }
    }
    from.read(room)
}

// Reads to the front of the room until it is full or the input ends, and gives how many bytes were read.
#[tactic(auto, using(words::proofs::Laws::bytes_each))]
fn read_full(from: &mut Stdin, room: &mut [u8]) -> io::Result<usize>
    ensures within { IfOk result (λ n. n ≤ length room.new) }
    ensures bytes { Bytes room.new }
{
    let mut n = 0;
    // Each turn goes on by as many bytes as were read, so that it is no `for`.
    while n < room.len() {
        let more = read_some(from, &mut room[n..])?;
        if more == 0 {
            return Ok(n);
        }
        n += more;
    }
    Ok(n)
}

// Lists what standard input holds, and gives how many bytes the text has. An error is one of the system's: nothing more is read or written then.
pub fn list_input(rt: &HostRuntime) -> io::Result<usize>
    ensures { IfOk result (λ count. Printed count) }
{
    // Room for an input and one byte more, by which an input that is too long is told, and room for any listing; arrays and no Vec, since the project
    // takes no memory from a heap.
    let mut room = [0; LIST_INPUT + 1];
    let mut text = [0; LIST_MOST];
    let n = read_full(&mut rt.stdin(), &mut room)?;
    let count = list_chunks::list_text(&mut text, &room[..n]);
    rt.stdout().write_all(&text[..count])?;
    Ok(count)
}
