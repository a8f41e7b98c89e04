// The transcript, file by file and window by window.
ghost use Rattle.std.specs.Prelude.{◌≡◌, ◌+◌, ◌-◌, ◌*◌, ◌≤◌, ◌<◌, ◌++◌, OnOk, IfOk, length, take};
ghost use Rattle.std.specs.List.{enumerate_from, flat_map, range_with_len};
ghost use Rattle.load_gen.specs.Load.{commit_lines, drill_transcript, file_excerpt, file_lines, files_text, load_conn, load_file};
ghost use Rattle.load_gen.specs.Load.{load_handle, load_windows, turn_lines, window_excerpt, windows_excerpt, write_lines};
ghost use Rattle.load_gen.specs.Numbers.{seed_number};
ghost use Rattle.load_gen.specs.Shuffles.{shuffle};

use crate::calls::{commit_message, write_message};
use crate::lines::{put, put_message_line, put_number_line};
use crate::numbers::{Numbers, shuffle_items};
use gw_model::{FileId, NoMemory};
use handles::handle_of;
use std::alloc::Global;

/// How many bytes a write has.
pub const WRITE_LENGTH: usize = 512;

/// How many writes a window has at most, and how many turns follow it.
const WINDOW: u32 = 8;

/// For how many bytes room is made for each call, on average more than the lines of a drill have.
const WRITE_LINES: usize = 1280;

/// The file system of the files.
const FSID: u64 = 1;

/// The number of the first file that is made in an empty tree.
const FIRST_FILE: u64 = 4;

/// What befalls one file is made from the start of the drill, the file's place among the files, from 0, and the number
/// of its writes.
#[derive(Clone, Copy)]
pub struct FileLoad {
    pub start: u64,
    pub place: u32,
    pub writes: u32,
}

impl FileLoad {
    fn file(&self) -> u64
        ensures { result ≡ load_file self.now }
    {
        FIRST_FILE + u64::from(self.place)
    }

    fn conn(&self) -> u64
        ensures { result ≡ load_conn self.now }
    {
        1 + u64::from(self.place)
    }

    // How many windows the writes make.
    fn windows(&self) -> u32
        requires { self.now.writes ≤ 4096 }
        ensures { result ≡ load_windows self.now }
    {
        (self.writes + WINDOW - 1) / WINDOW
    }

    /// Where a write begins in the file.
    pub fn offset_of(&self, write: u32) -> u64
        ensures { result ≡ 512 * write }
    {
        WRITE_LENGTH as u64 * u64::from(write)
    }

    /// The file's handle.
    pub fn handle(&self) -> [u8; 32]
        ensures { result ≡ load_handle self.now }
    {
        handle_of(FileId(self.file()), FSID)
    }
}

// A write, and an attempt to spill.
#[tactic(auto, unfolding(crate::specs::Load::write_lines))]
fn put_write(
    alloc: Global,
    text: &mut Vec<u8>,
    load: &FileLoad,
    xid: u32,
    write: u32,
) -> Result<(), NoMemory>
    ensures { OnOk result (text.new.items ≡ text.old.items ++ write_lines load.now (xid, write)) }
{
    let Ok(message) = write_message(alloc, load, xid, write) else {
        return Err(NoMemory);
    };
    put_message_line(text, load.conn(), &message)?;
    put_number_line(text, b"spill ", load.file())
}

// The writes in this order. So many calls were sent before.
fn put_writes(
    alloc: Global,
    text: &mut Vec<u8>,
    load: &FileLoad,
    sent: u32,
    writes: &[u32],
) -> Result<(), NoMemory>
    requires few { length writes.now ≤ 8 }
    requires sent { sent ≤ 4096 }
    ensures { OnOk result (text.new.items ≡ text.old.items
        ++ flat_map (write_lines load.now) (enumerate_from (sent + 1) writes.now)) }
{
    for (i, write) in writes.iter().enumerate() {
        put_write(alloc, text, load, sent + 1 + i as u32, *write)?;
    }
    Ok(())
}

// A pump, and a turn for each slot of the line.
#[tactic(auto, unfolding(crate::specs::Load::turn_lines))]
fn put_turns(text: &mut Vec<u8>, load: &FileLoad) -> Result<(), NoMemory>
    ensures { OnOk result (text.new.items ≡ text.old.items ++ turn_lines load.now) }
{
    put_number_line(text, b"pump ", load.file())?;
    for _ in 0..WINDOW {
        put_number_line(text, b"turn ", load.file())?;
    }
    Ok(())
}

// The numbers from `first` on.
fn window_from(first: u32) -> [u32; 8]
    requires { first ≤ 4096 }
    ensures { result ≡ range_with_len first 8 }
{
    [
        first,
        first + 1,
        first + 2,
        first + 3,
        first + 4,
        first + 5,
        first + 6,
        first + 7,
    ]
}

// So many numbers from `first` on in another order, in front of numbers that don't matter.
fn shuffled_window(first: u32, count: usize, numbers: &mut Numbers) -> [u32; 8]
    requires first { first ≤ 4096 }
    requires count { count ≤ 8 }
    ensures items { take count result ≡ (shuffle (count - 1) (range_with_len first count) numbers.old).items }
    ensures number { numbers.new ≡ (shuffle (count - 1) (range_with_len first count) numbers.old).number }
{
    let mut writes = window_from(first);
    shuffle_items(&mut writes[..count], numbers);
    writes
}

// The window of the writes from `first` on.
#[tactic(auto, unfolding(crate::specs::Load::window_excerpt))]
fn put_window(
    alloc: Global,
    text: &mut Vec<u8>,
    load: &FileLoad,
    first: u32,
    numbers: &mut Numbers,
) -> Result<(), NoMemory>
    requires few { load.now.writes ≤ 4096 }
    requires left { first < load.now.writes }
    ensures text { OnOk result (text.new.items ≡ text.old.items ++ (window_excerpt load.now first numbers.old).text) }
    ensures number { OnOk result (numbers.new ≡ (window_excerpt load.now first numbers.old).number) }
{
    let count = WINDOW.min(load.writes - first) as usize;
    let writes = shuffled_window(first, count, numbers);
    put_writes(alloc, text, load, first, &writes[..count])?;
    put_turns(text, load)
}

// All windows of a file.
fn put_windows(
    alloc: Global,
    text: &mut Vec<u8>,
    load: &FileLoad,
    numbers: &mut Numbers,
) -> Result<(), NoMemory>
    requires { load.now.writes ≤ 4096 }
    ensures text { OnOk result (text.new.items ≡ text.old.items ++ (windows_excerpt load.now (load_windows load.now) 0 numbers.old).text) }
    ensures number { OnOk result (numbers.new ≡ (windows_excerpt load.now (load_windows load.now) 0 numbers.old).number) }
{
    for window in 0..load.windows() {
        put_window(alloc, text, load, WINDOW * window, numbers)?;
    }
    Ok(())
}

// What follows the last window.
#[tactic(auto, unfolding(crate::specs::Load::commit_lines))]
fn put_end_of_file(alloc: Global, text: &mut Vec<u8>, load: &FileLoad) -> Result<(), NoMemory>
    requires { load.now.writes ≤ 4096 }
    ensures { OnOk result (text.new.items ≡ text.old.items ++ commit_lines load.now) }
{
    let Ok(message) = commit_message(alloc, load, load.writes + 1) else {
        return Err(NoMemory);
    };
    put_message_line(text, load.conn(), &message)?;
    put_number_line(text, b"pump ", load.file())?;
    put_number_line(text, b"turn ", load.file())?;
    put_number_line(text, b"sync ", load.file())
}

// All that befalls one file.
#[tactic(auto, unfolding(crate::specs::Load::file_excerpt))]
fn put_file(
    alloc: Global,
    text: &mut Vec<u8>,
    load: &FileLoad,
    numbers: &mut Numbers,
) -> Result<(), NoMemory>
    requires { load.now.writes ≤ 4096 }
    ensures text { OnOk result (text.new.items ≡ text.old.items ++ (file_excerpt load.now numbers.old).text) }
    ensures number { OnOk result (numbers.new ≡ (file_excerpt load.now numbers.old).number) }
{
    put_windows(alloc, text, load, numbers)?;
    put_end_of_file(alloc, text, load)
}

// The calls of all files.
fn put_files(
    alloc: Global,
    text: &mut Vec<u8>,
    start: u64,
    files: u32,
    writes: u32,
) -> Result<(), NoMemory>
    requires { writes ≤ 4096 }
    ensures { OnOk result (text.new.items ≡ text.old.items ++ files_text start writes files 0 (seed_number start)) }
{
    let mut numbers = Numbers::new(start);
    for place in 0..files {
        let load = FileLoad {
            start,
            place,
            writes,
        };
        put_file(alloc, text, &load, &mut numbers)?;
    }
    Ok(())
}

// The files are made.
#[tactic(auto, unfolding(crate::specs::Load::file_lines))]
fn put_file_lines(text: &mut Vec<u8>, files: u32) -> Result<(), NoMemory>
    ensures { OnOk result (text.new.items ≡ text.old.items ++ file_lines files) }
{
    for place in 0..files {
        put_number_line(text, b"file d", u64::from(place))?;
    }
    Ok(())
}

/// The transcript of a drill: `files` files are made, 1 to 8, and each gets `writes` UNSTABLE WRITEs of 512 bytes, 1 to
/// 4,096 (RFC 1813 section 3.3.7), and a COMMIT (section 3.3.21). The WRITEs come in windows of eight, each in an order
/// that is drawn from `start`. The text has about 41 MB at most. It fails only for want of
/// memory.
#[tactic(auto, unfolding(crate::specs::Load::drill_transcript))]
pub fn transcript_of(
    alloc: Global,
    start: u64,
    files: u32,
    writes: u32,
) -> Result<Vec<u8>, NoMemory>
    requires files { (1 ≤ files) × (files ≤ 8) }
    requires writes { (1 ≤ writes) × (writes ≤ 4096) }
    ensures { IfOk result (λ text. text.items ≡ drill_transcript start files writes) }
{
    let length = WRITE_LINES * (files * (writes + 1)) as usize;
    let Ok(mut text) = Vec::with_capacity(alloc, length) else {
        return Err(NoMemory);
    };
    put_file_lines(&mut text, files)?;
    put_files(alloc, &mut text, start, files, writes)?;
    put(&mut text, b"end\n")?;
    Ok(text)
}
