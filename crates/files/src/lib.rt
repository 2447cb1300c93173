// Files by name and the standard input, read into a lent room: what comes lies at the room's start, and the rest of the room stays. Files
// written whole. Which bytes the system gives or takes no contract can say.
//
//   read_all     what a reader still has
//   read_input   the standard input
//   read_file    the file of a name
//   read_named   the file whose name is a line of a list of names
//   read_names   the names that the standard input holds, one a line
//   read_of      one file of a list of just so many names
//   read_two     the two files whose names are the two lines of the standard input
//   can_write    whether a file whose name is a line of a list can be written
//   write_named  a text as the file whose name is a line of a list

#![tactic(auto)]

ghost use Rattle.std.specs.Prelude.{◌≡◌, false, ◌<◌, ◌≤◌, length};
ghost use Rattle.reckon.specs.Tests.{pick};
ghost use Rattle.files.specs.Files.{InputCame, FileCame, NamedCame, HandedOn, OneCame, TwoCame, NamedWritten, most_name, not_read};
ghost use Rattle.files.specs.Inner.Reading.{ReadOn, handed_of};

use std::fs::OpenOptions;
use std::io::{Read, Write};
use std::rt::Files;
use std::{fs, str};
use text::lines::nth_line;
use text::writing::put_word;

// What a read of a whole file came to: how many bytes came, and whether that is all of them, or all that the room holds. It is not where the
// file cannot be opened, or where a read of it fails, as a directory's does: what came before that may read well, and is not the file.
// No Result: most callers go on with the bytes that came, whole or not.
#[derive(Clone, Copy)]
pub struct Came {
    pub whole: bool,
    pub length: usize,
}

// How many bytes of each of two rooms are handed on.
#[derive(Clone, Copy)]
pub struct Two {
    pub first: usize,
    pub second: usize,
}

// The most bytes of a name that the system takes.
const MOST_NAME: usize = 4_095;

// One read asks for at most so many bytes.
const CHUNK: usize = 4_096;

// Room for the lines of the standard input: one byte more than is taken of it.
pub const NAMES_ROOM: usize = 65_537;

fn not_read() -> Came
    ensures { result ≡ not_read }
{
    Came {
        whole: false,
        length: 0,
    }
}

// One read of a file into a room at a position, as much of it as fits; by way of a room of its own, so that the rest of the lent one stays.
// Its answer is the position after what came, none where the read failed.
fn read_on<R: Read>(file: &mut R, room: &mut [u8], at: usize) -> Option<usize>
    requires { at ≤ length room.old }
    ensures { ReadOn at room.old room.new result }
{
    let mut chunk = [0u8; CHUNK];
    let fits = CHUNK.min(room.len() - at);
    match file.read(&mut chunk[..fits]) {
        Err(_) => None,
        Ok(got) => Some(put_word(room, at, &chunk[..got])),
    }
}

// What a reader still has, until it ends, the room is full or a read fails; of the reader no more is taken than the room holds.
pub fn read_all<R: Read>(file: &mut R, room: &mut [u8]) -> Came
    ensures { InputCame room.old room.new result }
{
    let mut at: usize = 0;
    while at < room.len() {
        let Some(after) = read_on(file, room, at) else {
            return Came {
                whole: false,
                length: at,
            };
        };
        if after <= at {
            return Came {
                whole: true,
                length: after,
            };
        }
        at = after;
    }
    Came {
        whole: true,
        length: at,
    }
}

pub fn read_input(rt: &impl Input, room: &mut [u8]) -> Came
    ensures { InputCame room.old room.new result }
{
    let mut input = rt.reader();
    read_all(&mut input, room)
}

// A name is text: one that is not UTF-8 cannot be opened.
pub fn read_file(rt: &impl Files, name: &[u8], room: &mut [u8]) -> Came
    ensures { FileCame name.now room.old room.new result }
{
    if MOST_NAME < name.len() {
        return not_read();
    }
    let Ok(path) = str::from_utf8(name) else {
        return not_read();
    };
    match fs::open(rt, path) {
        Err(_) => not_read(),
        Ok(mut file) => read_all(&mut file, room),
    }
}

// A last line without its newline names no file.
pub fn read_named(rt: &impl Files, names: &[u8], k: usize, room: &mut [u8]) -> Came
    ensures { NamedCame names.now k room.old room.new result }
{
    let line = nth_line(names, k);
    if !line.ended {
        return not_read();
    }
    let from = line.from;
    let to = line.to;
    read_file(rt, &names[from..to], room)
}

// How many bytes of a room are handed on: all of it where the file did not come whole. A room has one byte more than its caller takes, so that
// such a text is refused as one that is too long is.
fn handed(came: Came, room: usize) -> usize
    ensures { result ≡ handed_of came room }
{
    if !came.whole {
        return room;
    }
    came.length
}

// The same of the last file that is named: all of the room where a line follows its name, too.
fn handed_last(came: Came, more: bool, room: usize) -> usize
    ensures { result ≡ pick more room (handed_of came room) }
{
    if more {
        return room;
    }
    handed(came, room)
}

pub fn read_names(rt: &impl Input, room: &mut [u8]) -> usize
    ensures { HandedOn room.old room.new result }
{
    let came = read_input(rt, room);
    handed(came, room.len())
}

// The whole room where a line follows the last of the names, or where the file did not come whole.
pub fn read_of(rt: &impl Files, names: &[u8], k: usize, of: usize, room: &mut [u8]) -> usize
    ensures { OneCame names.now k of room.old room.new result }
{
    let came = read_named(rt, names, k, room);
    let after = nth_line(names, of);
    let more = after.from < names.len();
    handed_last(came, more, room.len())
}

// Two files, of which the standard input has the names, one a line, and no line after them.
pub fn read_two(rt: &(impl Files + Input), first: &mut [u8], second: &mut [u8]) -> Two
    ensures { TwoCame first.old first.new second.old second.new result }
{
    let mut names = [0u8; NAMES_ROOM];
    let count = read_names(rt, &mut names);
    let first_length = read_of(rt, &names[..count], 0, 2, first);
    let second_length = read_of(rt, &names[..count], 1, 2, second);
    Two {
        first: first_length,
        second: second_length,
    }
}

// A file that is there is opened and left as it is; one that is not there is made and taken away again.
fn can_open(rt: &impl Files, name: &[u8]) -> bool
    ensures { most_name < length name.now → result ≡ false }
{
    if MOST_NAME < name.len() {
        return false;
    }
    let Ok(path) = str::from_utf8(name) else {
        return false;
    };
    if can_append(rt, path) {
        return true;
    }
    if !can_create(rt, path) {
        return false;
    }
    let _ = fs::remove_file(rt, path);
    true
}

// Whether a file that is there can be opened for writing.
fn can_append(rt: &impl Files, path: &str) -> bool {
    OpenOptions::new().append(true).open(rt, path).is_ok()
}

// Makes a file that is not there, empty.
fn can_create(rt: &impl Files, path: &str) -> bool {
    OpenOptions::new()
        .write(true)
        .create_new(true)
        .open(rt, path)
        .is_ok()
}

// A last line without its newline names no file.
pub fn can_write(rt: &impl Files, names: &[u8], k: usize) -> bool
    ensures { NamedWritten names.now k result }
{
    let line = nth_line(names, k);
    if !line.ended {
        return false;
    }
    let from = line.from;
    let to = line.to;
    can_open(rt, &names[from..to])
}

// A file of a name, emptied or made, and then written: whether all of the text was taken.
fn write_file(rt: &impl Files, name: &[u8], text: &[u8]) -> bool
    ensures { most_name < length name.now → result ≡ false }
{
    if MOST_NAME < name.len() {
        return false;
    }
    let Ok(path) = str::from_utf8(name) else {
        return false;
    };
    match fs::create(rt, path) {
        Err(_) => false,
        Ok(mut file) => file.write_all(text).is_ok(),
    }
}

pub fn write_named(rt: &impl Files, names: &[u8], k: usize, text: &[u8]) -> bool
    ensures { NamedWritten names.now k result }
{
    let line = nth_line(names, k);
    if !line.ended {
        return false;
    }
    let from = line.from;
    let to = line.to;
    write_file(rt, &names[from..to], text)
}
