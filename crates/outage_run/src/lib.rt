// Turns of the program `outage`: the whole lines among the bytes that have been read are taken, and what is left of them is kept; and the end of the input.
#![tactic(auto)]

ghost use Rattle.std.specs.Prelude.{◌≡◌, ◌+◌, ◌*◌, ◌≤◌, false, length};
ghost use Rattle.rows.specs.Outcome.{outcome};
ghost use Rattle.desk_answers.specs.Desk.{in_store, has_ended};
ghost use Rattle.desk_lines.specs.Lines.{line_of};
ghost use Rattle.outage_rows.specs.Model.{rows_run};
ghost use Rattle.outage_rows.specs.Layout.{row_width, all_rows};
ghost use Rattle.outage_rows.specs.Printed.{longest_row};
ghost use Rattle.outage_run.specs.Feeding.{HasWords, bytes_for, CameUp, Took, TookAside, WholeLines, OneTurn, LastLine};
ghost use Rattle.outage_run.specs.Feeding as Feeding;
ghost use Rattle.outage_run.specs.Run.{row_of_line, row_to_try, malformed_row, first_taken, further_taken, past_taken, line_taken, comes_up, finished};

use desk_answers::Stage;
use desk_lines::{Line, Request, print};
use outage_rows::{ROW_WIDTH, Row};
use settings::Settings;
use units::Nanos;

// As many lines after line 1 can have a row.
pub const MOST_ROWS: usize = 200;

// How far the run has come.
#[derive(Clone, Copy)]
pub struct Feed {
    pub stage: Stage,
    // The number of the last line that was taken.
    pub number: u64,
    // How many rows wait for the run.
    pub count: usize,
    // How many more lines can have a row.
    pub room: usize,
    // How many bytes at the start of the output are printed and not written.
    pub put: usize,
}

// How far the run has come, and the place in the input at which the next line begins.
#[derive(Clone, Copy)]
pub struct Lines {
    pub feed: Feed,
    pub at: usize,
}

// How far the run has come after a turn, and how many bytes at the start of the input are pending of a line that has not ended.
#[derive(Clone, Copy)]
pub struct Turned {
    pub feed: Feed,
    pub pending: usize,
}

// Takes the whole lines among the first `end` bytes of the input, and keeps what is left.
pub fn turn(
    input: &mut [u8],
    end: usize,
    output: &mut [u8],
    rs: &mut [u64],
    memory: &mut [u64],
    feed: Feed,
) -> Turned
    requires { (end ≤ length input.old) × HasWords feed rs.old × (bytes_for end (Feeding.unprinted feed) ≤ length output.old)
        × (has_ended feed.stage ≡ false) }
    ensures { OneTurn feed end input.old rs.old memory.old output.old result input.new
        rs.new memory.new output.new }
{
    let lines = whole_lines(&input[0..end], output, rs, memory, unprinted(feed));
    let pending = desk_cutting::keep_rest(input, lines.at, end);
    let feed = lines.feed;
    Turned { feed, pending }
}

// Takes the line that the end of the input ends, if one has begun, and runs the rows that wait.
pub fn last_line(
    input: &[u8],
    pending: usize,
    output: &mut [u8],
    rs: &mut [u64],
    memory: &mut [u64],
    feed: Feed,
) -> Feed
    requires { (pending ≤ length input.now) × HasWords feed rs.old × (bytes_for 1 (Feeding.unprinted feed) ≤ length output.old)
        × (has_ended feed.stage ≡ false) }
    ensures { LastLine feed pending input.now rs.old memory.old output.old result rs.new
        memory.new output.new }
{
    let feed = unprinted(feed);
    if pending == 0 {
        return finish(output, rs, memory, feed);
    }
    let feed = take_line(&input[0..pending], output, rs, memory, feed);
    finish(output, rs, memory, feed)
}

// The same, with nothing printed.
fn unprinted(feed: Feed) -> Feed
    ensures { result ≡ Feeding.unprinted feed }
{
    let stage = feed.stage;
    Feed {
        stage,
        number: feed.number,
        count: feed.count,
        room: feed.room,
        put: 0,
    }
}

// Takes the lines that end among some bytes. None is taken once the run has ended.
fn whole_lines(
    bytes: &[u8],
    output: &mut [u8],
    rs: &mut [u64],
    memory: &mut [u64],
    feed: Feed,
) -> Lines
    requires { HasWords feed rs.old × (bytes_for (length bytes.now) feed ≤ length output.old) × (has_ended feed.stage ≡ false) }
    ensures { WholeLines feed bytes.now rs.old memory.old output.old result rs.new
        memory.new output.new }
{
    let mut feed = feed;
    let mut at: usize = 0;
    while at < bytes.len() {
        let stop = scan::find(bytes, at, bytes.len(), b'\n');
        if stop == bytes.len() {
            break;
        }
        feed = take_line(&bytes[at..stop], output, rs, memory, feed);
        at = stop + 1;
        if has_ended(feed) {
            break;
        }
    }
    Lines { feed, at }
}

// Takes a line.
fn take_line(line: &[u8], output: &mut [u8], rs: &mut [u64], memory: &mut [u64], feed: Feed) -> Feed
    requires { HasWords feed rs.old × (bytes_for 1 feed ≤ length output.old) }
    ensures { Took 1 (line_taken line.now) feed rs.old memory.old output.old result rs.new
        memory.new output.new }
{
    let number = feed.number.wrapping_add(1);
    let stage = feed.stage;
    match stage {
        Stage::First => first(number, line, output, memory, feed),
        Stage::Open(settings) => further(settings, number, line, output, rs, memory, feed),
        Stage::Ended(_) => feed,
    }
}

// Answers line 1 as the desk does, and prints the answer.
fn first(number: u64, line: &[u8], output: &mut [u8], memory: &mut [u64], feed: Feed) -> Feed
    requires { bytes_for 1 feed ≤ length output.old }
    ensures { TookAside 1 (first_taken number (line_of line.now)) feed memory.old output.old result
        memory.new output.new }
{
    let served = desk_answers::open(desk_lines::read(line), memory);
    let stage = served.stage;
    let told = served.told;
    let put = print::line(output, feed.put, number, told.code, told.number);
    Feed {
        stage,
        number,
        count: feed.count,
        room: feed.room,
        put,
    }
}

// Takes a line after the first: it is kept as a row, or it comes after the last line that can have one.
fn further(
    settings: Settings,
    number: u64,
    line: &[u8],
    output: &mut [u8],
    rs: &mut [u64],
    memory: &mut [u64],
    feed: Feed,
) -> Feed
    requires { HasWords feed rs.old × (bytes_for 1 feed ≤ length output.old) }
    ensures { Took 1 (further_taken settings number (line_of line.now)) feed rs.old memory.old output.old result
        rs.new memory.new output.new }
{
    if feed.room == 0 {
        return past(settings, number, output, rs, memory, feed);
    }
    outage_rows::keep(rs, feed.count, row_of(desk_lines::read(line)));
    let stage = feed.stage;
    Feed {
        stage,
        number,
        count: feed.count + 1,
        room: feed.room - 1,
        put: feed.put,
    }
}

// A line after the last that can have a row: the rows are run and printed, and then the line, as malformed.
fn past(
    settings: Settings,
    number: u64,
    output: &mut [u8],
    rs: &mut [u64],
    memory: &mut [u64],
    feed: Feed,
) -> Feed
    requires { HasWords feed rs.old × (bytes_for 1 feed ≤ length output.old) }
    ensures { Took 1 (past_taken settings number) feed rs.old memory.old output.old result rs.new
        memory.new output.new }
{
    let ran = run_and_print(settings, output, rs, memory, feed);
    let put = outage_rows::print::row(output, ran.put, number, malformed());
    let stage = ran.stage;
    Feed {
        stage,
        number,
        count: ran.count,
        room: ran.room,
        put,
    }
}

// The end of the input: the rows that wait are run and printed.
fn finish(output: &mut [u8], rs: &mut [u64], memory: &mut [u64], feed: Feed) -> Feed
    requires { (row_width * feed.count ≤ length rs.old) × (feed.put + longest_row * feed.count ≤ length output.old) }
    ensures { Took 0 finished feed rs.old memory.old output.old result rs.new memory.new
        output.new }
{
    let stage = feed.stage;
    match stage {
        Stage::First => feed,
        Stage::Open(settings) => run_and_print(settings, output, rs, memory, feed),
        Stage::Ended(_) => feed,
    }
}

// Runs the rows that wait, and prints them after what is printed.
fn run_and_print(
    settings: Settings,
    output: &mut [u8],
    rs: &mut [u64],
    memory: &mut [u64],
    feed: Feed,
) -> Feed
    requires { (row_width * feed.count ≤ length rs.old) × (feed.put + longest_row * feed.count ≤ length output.old) }
    ensures { Took 0 (comes_up settings) feed rs.old memory.old output.old result rs.new memory.new
        output.new }
{
    let put = come_up(settings, output, rs, memory, feed.count, feed.put);
    let stage = feed.stage;
    Feed {
        stage,
        number: feed.number,
        count: 0,
        room: feed.room,
        put,
    }
}

// Runs the first rows in the store's part of the memory, and prints them from a place on. Tells the place after them.
fn come_up(
    settings: Settings,
    output: &mut [u8],
    rs: &mut [u64],
    memory: &mut [u64],
    count: usize,
    at: usize,
) -> usize
    requires { (row_width * count ≤ length rs.old) × (at + longest_row * count ≤ length output.old) }
    ensures { CameUp settings count at rs.old memory.old output.old result memory.new output.new }
{
    let end = ROW_WIDTH * count;
    run_in_store(settings, &mut rs[0..end], memory);
    outage_rows::print::rows(&rs[0..end], output, at)
}

// Runs rows in the store's part of the memory.
fn run_in_store(settings: Settings, rs: &mut [u64], memory: &mut [u64])
    ensures { outcome (all_rows rs.new) memory.new
        ≡ in_store settings (rows_run settings (all_rows rs.old)) memory.old }
{
    let size = desk_answers::store_size(settings, memory.len());
    outage_rows::run(settings, rs, &mut memory[0..size]);
}

// The row of a line.
fn row_of(line: Line) -> Row
    ensures { result ≡ row_of_line line }
{
    match line {
        Line::Try(request) => to_try(request),
        Line::SetUp(_) => malformed(),
        Line::Peek(_) => malformed(),
        Line::Reserve(_, _) => malformed(),
        Line::Refund(_, _) => malformed(),
        Line::Remove(_) => malformed(),
        Line::Malformed => malformed(),
    }
}

// A row that waits for its first try.
fn to_try(request: Request) -> Row
    ensures { result ≡ row_to_try request }
{
    let at = request.at;
    Row {
        at,
        key: request.key,
        cost: request.cost as u64,
        tries: 0,
        code: 0,
        live: 1,
    }
}

// The row of a malformed line or of a line of another kind.
fn malformed() -> Row
    ensures { result ≡ malformed_row }
{
    Row {
        at: Nanos(0),
        key: 0,
        cost: 0,
        tries: 0,
        code: 9,
        live: 0,
    }
}

// Whether no further line is taken.
pub fn has_ended(feed: Feed) -> bool
    ensures { result ≡ has_ended feed.stage }
{
    let stage = feed.stage;
    match stage {
        Stage::First => false,
        Stage::Open(_) => false,
        Stage::Ended(_) => true,
    }
}
