// Writing gossipsub's RPC (02, orders 4 and 6). An entry is three numbers, as crate rpc reads them: its kind, its topic, its value. The
// definitions are specs/Writing.antt. Lengths are computed first, inner ones before outer ones and each once; then everything is stored
// front to back. A byte past the end of the buffer is not stored, so that no function here requires room: `write` has checked that there is
// enough.
#![tactic(auto)]

ghost use Rattle.std.specs.Prelude.{◌≡◌, ◌+◌, ◌*◌, ◌≤◌, ◌<◌, length, set};
ghost use Rattle.varint.specs.Groups.{encode};
ghost use Rattle.rpc_write.specs.Writing.{Stored, Fitting, part_size, name_size, name_of, value_field, part_field, head_bytes};
ghost use Rattle.rpc_write.specs.Writing.{early, late, name_number, run, id_of, named_bytes, entry_bytes, one_bytes, kind_bytes};
ghost use Rattle.rpc_write.specs.Writing.{control_bytes, inner_field, message_of, named_ok, notice_ok, entry_ok, list_ok, write_of};
ghost use Rattle.rpc_write.specs.Writing.{Puts, ControlSize, Writes};
ghost use Rattle.rpc_write.specs.Tables.{known_by, Given, entry_at};
ghost use Rattle.rpc.specs.Messages.{idontwant};
ghost use Rattle.rpc.specs.Reading.{name_bytes, known};

use message_ids::{Table, number_row, table_ok};
use rpc::{GRAFT, IDONTWANT, NAME_BYTES, NAMES_BYTES, PRUNE, ROW_BYTES, SUBSCRIPTION};

// Why no message is written; the buffer is as it was.
#[derive(Clone, Copy)]
pub enum WriteError {
    // 2
    NotList,
    // 13
    Short,
}

// What the writer is lent: the topics' names, and the message ids with their numbers.
#[derive(Clone, Copy)]
struct Tables<'n, 't> {
    names: &'n [u8; NAMES_BYTES],
    table: Table<'t>,
}

// An entry of a list: its three numbers. The kind stays a number, as the list has it: `list_ok` is what tests it.
#[derive(Clone, Copy)]
struct Entry {
    kind: u64,
    topic: u64,
    value: u64,
}

const TOPICS: u64 = rpc::TOPICS as u64;

// Numbers of fields: of an RPC, of its control message, of an IDONTWANT, of a subscription, of a GRAFT or PRUNE.
const SUBSCRIPTIONS: u64 = 1;

const CONTROL: u64 = 3;

const GRAFTS: u64 = 3;

const PRUNES: u64 = 4;

const NOTICES: u64 = 5;

const MESSAGE_ID: u64 = 1;

const SUBSCRIBE: u64 = 1;

const TOPIC: u64 = 2;

const TOPIC_ID: u64 = 1;

const BACKOFF: u64 = 3;

pub const MOST_SECONDS: u64 = 3600;

pub const MOST_ACTIONS: usize = 64;

pub const MOST_CHANGES: usize = 8;

pub const MOST_ENTRIES: usize = MOST_CHANGES + MOST_ACTIONS;

// ---- numbers

// How many bytes a number has in its shortest form.
fn number_size(n: u64) -> usize
    requires { n < 16384 }
    ensures { (result ≡ length (encode n)) × (result ≤ 2) }
{
    if n < 128 { 1 } else { 2 }
}

fn put(buf: &mut [u8], i: usize, b: u8)
    ensures { buf.new ≡ set buf.old i b }
{
    if i < buf.len() {
        buf[i] = b;
    }
}

fn put_number(buf: &mut [u8], at: usize, n: u64) -> usize
    requires { (n < 16384) × (at < 1000000) }
    ensures { Puts buf at (encode n) 2 result }
{
    if n < 128 {
        put(buf, at, n as u8);
        return at + 1;
    }
    put(buf, at, (n % 128 + 128) as u8);
    put(buf, at + 1, (n / 128) as u8);
    at + 2
}

// ---- fields

// A field of wire type 0, absent rather than zero.
fn value_size(number: u64, v: u64) -> usize
    requires { (number < 16) × (v < 16384) }
    ensures { (result ≡ length (value_field number v)) × (result ≤ 4) }
{
    if v == 0 {
        return 0;
    }
    number_size(8 * number) + number_size(v)
}

fn put_value(buf: &mut [u8], at: usize, number: u64, value: u64) -> usize
    requires { (number < 16) × ((value < 16384) × (at < 999000)) }
    ensures { Puts buf at (value_field number value) 4 result }
{
    if value == 0 {
        return at;
    }
    let a = put_number(buf, at, 8 * number);
    put_number(buf, a, value)
}

// A field of wire type 2, whose content has so many bytes.
fn part_size(number: u64, size: usize) -> usize
    requires { (number < 16) × (size < 16384) }
    ensures { (result ≡ part_size number size) × (result ≤ size + 4) }
{
    number_size(8 * number + 2) + number_size(size as u64) + size
}

// What stands before the content: the tag, and the content's length.
fn put_head(buf: &mut [u8], at: usize, number: u64, size: usize) -> usize
    requires { (number < 16) × ((size < 16384) × (at < 999000)) }
    ensures { Puts buf at (head_bytes number size) 4 result }
{
    let a = put_number(buf, at, 8 * number + 2);
    put_number(buf, a, size as u64)
}

// ---- topics' names

fn name_size(names: &[u8; NAMES_BYTES], topic: u64) -> usize
    ensures { (result ≡ name_size names.now topic) × (result ≤ name_bytes) }
{
    if topic < TOPICS {
        let row = ROW_BYTES * topic as usize;
        let size = usize::from(names[row]);
        if size <= NAME_BYTES {
            return size;
        }
    }
    0
}

// How many of `size` bytes stand before the end of a buffer, from `at` on.
fn fitting(end: usize, at: usize, size: usize) -> usize
    ensures { Fitting end at size result }
{
    if end <= at {
        return 0;
    }
    if size <= end - at { size } else { end - at }
}

// Bytes of a list, from a place on, as far as the buffer goes. A loop: `buf[at..at + n]` is out of range where `at` is past the end, though
// n is 0 there.
fn put_run(buf: &mut [u8], at: usize, src: &[u8], start: usize, size: usize) -> usize
    requires { (start + size ≤ length src.now) × ((size ≤ name_bytes) × (at < 1000000)) }
    ensures { Puts buf at (run src.now start size) name_bytes result }
{
    let n = fitting(buf.len(), at, size);
    for i in 0..n {
        buf[at + i] = src[start + i];
    }
    at + size
}

fn put_name(buf: &mut [u8], at: usize, names: &[u8; NAMES_BYTES], topic: u64) -> usize
    requires { at < 1000000 }
    ensures { Puts buf at (name_of names.now topic) name_bytes result }
{
    if TOPICS <= topic {
        return at;
    }
    let row = ROW_BYTES * topic as usize + 1;
    put_run(buf, at, names, row, name_size(names, topic))
}

fn put_named(buf: &mut [u8], at: usize, number: u64, names: &[u8; NAMES_BYTES], topic: u64) -> usize
    requires { (number < 16) × (at < 990000) }
    ensures { Puts buf at (part_field number (name_of names.now topic)) 68 result }
{
    let a = put_head(buf, at, number, name_size(names, topic));
    put_name(buf, a, names, topic)
}

// ---- message ids

fn id_size(table: &Table<'_>, v: u64) -> usize
    ensures { (result ≡ length (id_of table.now.ids.now table.now.numbers.now v)) × (result ≤ name_bytes) }
{
    match number_row(table.numbers, table.order, v) {
        Some(k) => usize::from(table.ids[ROW_BYTES * k]),
        None => 0,
    }
}

fn put_id(buf: &mut [u8], at: usize, table: &Table<'_>, v: u64) -> usize
    requires { at < 1000000 }
    ensures { Puts buf at (id_of table.now.ids.now table.now.numbers.now v) name_bytes result }
{
    match number_row(table.numbers, table.order, v) {
        Some(k) => {
            let row = ROW_BYTES * k;
            put_run(buf, at, table.ids, row + 1, usize::from(table.ids[row]))
        }
        None => at,
    }
}

// ---- an entry's message: a subscription's number stands before the name, a PRUNE's after it

fn early_value(kind: u64, v: u64) -> u64
    ensures { (result ≡ early kind v) × (result ≤ v) }
{
    if kind == SUBSCRIPTION { v } else { 0 }
}

fn late_value(kind: u64, v: u64) -> u64
    ensures { (result ≡ late kind v) × (result ≤ v) }
{
    if kind == PRUNE { v } else { 0 }
}

fn name_number(kind: u64) -> u64
    ensures { (result ≡ name_number kind) × (result < 16) }
{
    if kind == SUBSCRIPTION {
        TOPIC
    } else {
        TOPIC_ID
    }
}

fn named_size(names: &[u8; NAMES_BYTES], e: Entry) -> usize
    requires { e.value < 16384 }
    ensures { (result ≡ length (named_bytes names.now e.kind e.topic e.value)) × (result ≤ 76) }
{
    let a = value_size(SUBSCRIBE, early_value(e.kind, e.value));
    let b = part_size(name_number(e.kind), name_size(names, e.topic));
    let c = value_size(BACKOFF, late_value(e.kind, e.value));
    a + b + c
}

fn put_fields(buf: &mut [u8], at: usize, names: &[u8; NAMES_BYTES], e: Entry) -> usize
    requires { (e.value < 16384) × (at < 900000) }
    ensures { Puts buf at (named_bytes names.now e.kind e.topic e.value) 76 result }
{
    let a = put_value(buf, at, SUBSCRIBE, early_value(e.kind, e.value));
    let b = put_named(buf, a, name_number(e.kind), names, e.topic);
    put_value(buf, b, BACKOFF, late_value(e.kind, e.value))
}

// ---- an entry's content: of an IDONTWANT the id itself

fn entry_size(t: &Tables<'_, '_>, e: Entry) -> usize
    requires { (e.kind ≡ idontwant → ⊥) → e.value < 16384 }
    ensures { (result ≡ length (entry_bytes (known_by t.now) e.kind e.topic e.value)) × (result ≤ 76) }
{
    if e.kind == IDONTWANT {
        return id_size(&t.table, e.value);
    }
    named_size(t.names, e)
}

fn put_entry(buf: &mut [u8], at: usize, t: &Tables<'_, '_>, e: Entry) -> usize
    requires { ((e.kind ≡ idontwant → ⊥) → e.value < 16384) × (at < 900000) }
    ensures { Puts buf at (entry_bytes (known_by t.now) e.kind e.topic e.value) 76 result }
{
    if e.kind == IDONTWANT {
        return put_id(buf, at, &t.table, e.value);
    }
    put_fields(buf, at, t.names, e)
}

// ---- an entry as a field, if it is of the kind

fn one_size(t: &Tables<'_, '_>, e: Entry, kind: u64, number: u64) -> usize
    requires { ((e.kind ≡ idontwant → ⊥) → e.value < 16384) × (number < 16) }
    ensures { (result ≡ length (one_bytes (known_by t.now) e.kind e.topic e.value kind number)) × (result ≤ 80) }
{
    if e.kind != kind {
        return 0;
    }
    part_size(number, entry_size(t, e))
}

fn put_one(buf: &mut [u8], at: usize, t: &Tables<'_, '_>, e: Entry, kind: u64, number: u64) -> usize
    requires { ((e.kind ≡ idontwant → ⊥) → e.value < 16384) × ((number < 16) × (at < 800000)) }
    ensures { Puts buf at (one_bytes (known_by t.now) e.kind e.topic e.value kind number) 80 result }
{
    if e.kind != kind {
        return at;
    }
    let a = put_head(buf, at, number, entry_size(t, e));
    put_entry(buf, a, t, e)
}

// The i-th entry of a list.
fn entry_at(list: &[u64], i: usize) -> Entry
    requires { 3 * i + 2 < length list.now }
    ensures { result ≡ entry_at list.now i }
{
    let j = 3 * i;
    Entry {
        kind: list[j],
        topic: list[j + 1],
        value: list[j + 2],
    }
}

// ---- the entries of a kind, one after the other

fn kind_size(t: &Tables<'_, '_>, list: &[u64], n: usize, kind: u64, number: u64) -> usize
    requires { (Given t.now list.now n) × (number < 16) }
    ensures { (result ≡ length (kind_bytes (known_by t.now) list.now n
        kind number)) × (result ≤ 5760) }
{
    let mut size: usize = 0;
    for i in 0..n {
        size += one_size(t, entry_at(list, i), kind, number);
    }
    size
}

fn put_kind(
    buf: &mut [u8],
    at: usize,
    t: &Tables<'_, '_>,
    list: &[u64],
    n: usize,
    kind: u64,
    number: u64,
) -> usize
    requires { (Given t.now list.now n) × ((number < 16) × (at < 700000)) }
    ensures { Puts buf at (kind_bytes (known_by t.now) list.now n
        kind number) 5760 result }
{
    let mut place = at;
    for i in 0..n {
        place = put_one(buf, place, t, entry_at(list, i), kind, number);
    }
    place
}

// ---- the control message, and one field that holds it or none

fn notices_size(t: &Tables<'_, '_>, list: &[u64], n: usize) -> usize
    requires { Given t.now list.now n }
    ensures { (result ≡ length (inner_field 5 (kind_bytes (known_by t.now)
        list.now n idontwant 1)))
        × (result ≤ 5764) }
{
    let size = kind_size(t, list, n, IDONTWANT, MESSAGE_ID);
    if size == 0 {
        return 0;
    }
    part_size(NOTICES, size)
}

fn put_notices(buf: &mut [u8], at: usize, t: &Tables<'_, '_>, list: &[u64], n: usize) -> usize
    requires { Given t.now list.now n × (at < 650000) }
    ensures { Puts buf at (inner_field 5 (kind_bytes (known_by t.now)
        list.now n idontwant 1))
        5764 result }
{
    let size = kind_size(t, list, n, IDONTWANT, MESSAGE_ID);
    if size == 0 {
        return at;
    }
    let a = put_head(buf, at, NOTICES, size);
    put_kind(buf, a, t, list, n, IDONTWANT, MESSAGE_ID)
}

fn control_size(t: &Tables<'_, '_>, list: &[u64], n: usize) -> usize
    requires { Given t.now list.now n }
    ensures { ControlSize (known_by t.now) list.now n result }
{
    let a = kind_size(t, list, n, GRAFT, GRAFTS);
    let b = kind_size(t, list, n, PRUNE, PRUNES);
    a + b + notices_size(t, list, n)
}

fn put_control(buf: &mut [u8], at: usize, t: &Tables<'_, '_>, list: &[u64], n: usize) -> usize
    requires { Given t.now list.now n × (at < 600000) }
    ensures { Puts buf at (control_bytes (known_by t.now) list.now n)
        17284 result }
{
    let a = put_kind(buf, at, t, list, n, GRAFT, GRAFTS);
    let b = put_kind(buf, a, t, list, n, PRUNE, PRUNES);
    put_notices(buf, b, t, list, n)
}

fn put_control_field(
    buf: &mut [u8],
    at: usize,
    t: &Tables<'_, '_>,
    list: &[u64],
    n: usize,
    size: usize,
) -> usize
    requires { (Given t.now list.now n) ×
        (ControlSize (known_by t.now) list.now n size × (at < 500000)) }
    ensures { Puts buf at (inner_field 3 (control_bytes (known_by t.now)
        list.now n)) 17288 result }
{
    if size == 0 {
        return at;
    }
    let a = put_head(buf, at, CONTROL, size);
    put_control(buf, a, t, list, n)
}

// ---- the message, given the length of its control message

fn message_size(t: &Tables<'_, '_>, list: &[u64], n: usize, control: usize) -> usize
    requires { (Given t.now list.now n) × ControlSize
        (known_by t.now) list.now n control }
    ensures { result ≡ length (message_of (known_by t.now) list.now n) }
{
    let a = kind_size(t, list, n, SUBSCRIPTION, SUBSCRIPTIONS);
    if control == 0 {
        return a;
    }
    a + part_size(CONTROL, control)
}

fn put_message(buf: &mut [u8], t: &Tables<'_, '_>, list: &[u64], n: usize, control: usize) -> usize
    requires { (Given t.now list.now n) × ControlSize
        (known_by t.now) list.now n control }
    ensures { Stored buf.old 0 (message_of (known_by t.now)
        list.now n) result buf.new }
{
    let a = put_kind(buf, 0, t, list, n, SUBSCRIPTION, SUBSCRIPTIONS);
    put_control_field(buf, a, t, list, n, control)
}

// ---- what is written

fn named_ok(names: &[u8; NAMES_BYTES], e: Entry) -> bool
    ensures { result ≡ named_ok names.now e.kind e.topic e.value }
{
    let size = name_size(names, e.topic);
    (0 < size)
        & (((e.kind == SUBSCRIPTION) & (e.value <= 1))
            | ((e.kind == GRAFT) & (e.value == 0))
            | ((e.kind == PRUNE) & (e.value <= MOST_SECONDS)))
}

fn notice_ok(table: &Table<'_>, e: Entry) -> bool
    ensures { result ≡ notice_ok table.now.numbers.now e.kind e.topic e.value }
{
    if e.kind != IDONTWANT {
        return false;
    }
    if e.topic != 0 {
        return false;
    }
    number_row(table.numbers, table.order, e.value).is_some()
}

fn entry_ok(t: &Tables<'_, '_>, e: Entry) -> bool
    ensures { result ≡ entry_ok (known_by t.now) e.kind e.topic e.value }
{
    named_ok(t.names, e) | notice_ok(&t.table, e)
}

fn list_ok(t: &Tables<'_, '_>, list: &[u64], n: usize) -> bool
    ensures { result ≡ list_ok (known_by t.now) list.now n }
{
    if MOST_ENTRIES < n {
        return false;
    }
    if list.len() < 3 * n {
        return false;
    }
    for i in 0..n {
        if !entry_ok(t, entry_at(list, i)) {
            return false;
        }
    }
    true
}

// Writes the first n entries of a list, or says why not and leaves the buffer. `ids`, `numbers` and `order` are the table of message ids
// (crate message_ids), each on its own as C hands them. The list may be longer than n entries: `CallWritesAgain` writes from the reader's.
pub fn write(
    names: &[u8; NAMES_BYTES],
    ids: &[u8],
    numbers: &[u64],
    order: &[u64],
    list: &[u64],
    n: usize,
    buf: &mut [u8],
) -> Result<usize, WriteError>
    ensures { Writes (write_of (known names.now ids.now numbers.now) order.now
        list.now n buf.old) result buf }
{
    if !table_ok(ids, numbers, order) {
        return Err(WriteError::NotList);
    }
    let table = Table {
        ids,
        numbers,
        order,
    };
    let t = Tables { names, table };
    if !list_ok(&t, list, n) {
        return Err(WriteError::NotList);
    }
    let control = control_size(&t, list, n);
    if buf.len() < message_size(&t, list, n, control) {
        return Err(WriteError::Short);
    }
    Ok(put_message(buf, &t, list, n, control))
}
