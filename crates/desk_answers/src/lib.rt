// What a line is answered, and what it does to the memory.
#![tactic(auto)]

ghost use Rattle.std.specs.Prelude.{◌≡◌};
ghost use Rattle.rows.specs.Outcome.{outcome};
ghost use Rattle.desk_answers.specs.Desk as Desk;

use desk_lines::{Line, Request};
use rules::codes::Told;
use settings::Settings;
use shard::Identity;
use units::Nanos;

// How the run stands.
#[derive(Clone, Copy)]
pub enum Stage {
    // Line 1 is to come.
    First,
    // Line 1 was accepted, with these settings.
    Open(Settings),
    // Line 1 was not accepted: the code that it was told.
    Ended(u64),
}

// What a line is told, and how the run stands then.
#[derive(Clone, Copy)]
pub struct Served {
    pub told: Told,
    pub stage: Stage,
}

// Answers a line, the first or another.
pub fn serve(stage: Stage, line: Line, memory: &mut [u64]) -> Served
    ensures { outcome result memory.new ≡ Desk.served stage line memory.old }
{
    match stage {
        Stage::First => open(line, memory),
        Stage::Open(settings) => Served {
            told: in_store(settings, line, memory),
            stage: Stage::Open(settings),
        },
        Stage::Ended(_) => unopened(),
    }
}

// Answers line 1: only a settings line opens the desk.
pub fn open(line: Line, memory: &mut [u64]) -> Served
    ensures { outcome result memory.new ≡ Desk.opened line memory.old }
{
    match line {
        Line::SetUp(settings) => set_up(settings, memory),
        Line::Try(_) => unopened(),
        Line::Peek(_) => unopened(),
        Line::Reserve(_, _) => unopened(),
        Line::Refund(_, _) => unopened(),
        Line::Remove(_) => unopened(),
        Line::Malformed => unopened(),
    }
}

// A line 1 that is no settings line ends the run.
fn unopened() -> Served
    ensures { result ≡ Desk.unopened }
{
    let told = malformed();
    Served {
        told,
        stage: Stage::Ended(told.code),
    }
}

// Sets the store up in its part of the memory.
fn set_up(settings: Settings, memory: &mut [u64]) -> Served
    ensures { outcome result memory.new ≡ Desk.set_up settings memory.old }
{
    let size = store_size(settings, memory.len());
    let told = perkey::set_up(settings, &mut memory[0..size]).told();
    Served {
        told,
        stage: stage_after(settings, told.code),
    }
}

// How the run stands after a set-up with a code.
fn stage_after(settings: Settings, code: u64) -> Stage
    ensures { result ≡ Desk.stage_after settings code }
{
    if code == 0 {
        Stage::Open(settings)
    } else {
        Stage::Ended(code)
    }
}

// The words that the store is lent from a memory of so many: those it needs, or all where it needs more.
pub fn store_size(settings: Settings, words: usize) -> usize
    ensures { result ≡ Desk.store_size settings words }
{
    if settings.check_sizes().is_err() {
        return 0;
    }
    store::words::memory_words(settings).min(words)
}

// Answers a line after the first in the store's part of the memory.
fn in_store(settings: Settings, line: Line, memory: &mut [u64]) -> Told
    ensures { outcome result memory.new ≡ Desk.in_store settings (Desk.answered settings line) memory.old }
{
    let size = store_size(settings, memory.len());
    answer(settings, line, &mut memory[0..size])
}

// Answers a line after the first on the words of the store.
fn answer(settings: Settings, line: Line, ws: &mut [u64]) -> Told
    ensures { outcome result ws.new ≡ Desk.answered settings line ws.old }
{
    match line {
        Line::SetUp(_) => malformed(),
        Line::Try(request) => tried(settings, request, ws),
        Line::Peek(request) => peeked(settings, request, ws),
        Line::Reserve(request, max_wait) => reserved(settings, request, max_wait, ws),
        Line::Refund(key, cost) => perkey::refund(settings, ws, identity(key), cost).told(),
        Line::Remove(key) => perkey::remove(settings, ws, identity(key)).told(),
        Line::Malformed => malformed(),
    }
}

// A try.
pub fn tried(settings: Settings, request: Request, ws: &mut [u64]) -> Told
    ensures { outcome result ws.new ≡ Desk.tried settings request ws.old }
{
    let at = request.at;
    let id = identity(request.key);
    perkey::try_acquire_with_cost(settings, ws, at, id, request.cost).told()
}

// A peek.
fn peeked(settings: Settings, request: Request, ws: &[u64]) -> Told
    ensures { outcome result ws.now ≡ Desk.peeked settings request ws.now }
{
    let at = request.at;
    let id = identity(request.key);
    perkey::peek(settings, ws, at, id, request.cost).told()
}

// A reservation.
fn reserved(settings: Settings, request: Request, max_wait: Nanos, ws: &mut [u64]) -> Told
    ensures { outcome result ws.new ≡ Desk.reserved settings request max_wait ws.old }
{
    let at = request.at;
    let id = identity(request.key);
    perkey::reserve(settings, ws, at, id, request.cost, max_wait).told()
}

// A key's identity: its hash and the key itself.
fn identity(key: u64) -> Identity
    ensures { result ≡ Desk.identity_of key }
{
    let hash = hash::key_hash(key);
    Identity { hash, key }
}

// What a malformed line is told.
fn malformed() -> Told
    ensures { result ≡ Desk.malformed }
{
    Told {
        code: 9,
        number: 0,
        moment: 0,
    }
}
