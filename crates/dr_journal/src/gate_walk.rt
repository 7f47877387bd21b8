// The walk over the gates of a file, through a window.
ghost use Rattle.std.specs.Prelude.{◌≡◌, ◌+◌, ◌-◌, ◌<◌, ◌≤◌, List, ℕ, true, length, get_or, min, max, take, drop, nat_eq, IfOk, IfErr, vec_len};
ghost use Rattle.std.specs.Option.{ForSome};
ghost use Rattle.std.specs.List.{starts_with};
ghost use Rattle.dr_disk.specs.Disk.{NoOther};
ghost use Rattle.dr_journal.specs.Reading.{header, form_1};
ghost use Rattle.dr_journal.specs.Gates.{gate_in};
ghost use Rattle.dr_journal.specs.Places.{AreAt};
ghost use Rattle.dr_journal.specs.Held.{ClosesAt};
ghost use Rattle.dr_journal.specs.Causes.{OpenFault, ReadFault};
ghost use Rattle.dr_journal.specs.declared.gates.Gate.TheVariants.{Open};

use crate::JournalFault;
use crate::gates::{Gate, HEAD, gate_of};
use crate::window::Window;
use dr_disk::{Disk, GREATEST_LIMIT};
use std::alloc::Global;

/// The first bytes of a journal's file.
pub(crate) const HEADER: [u8; 16] = *b"DRDESK journal 1";

// What stands at a gate's place, by the bytes from there on, as `gate_of` has it.
fn gate_in_bytes(bytes: &[u8], left: u64) -> Gate
    requires enough { min 5 left ≤ length bytes.now }
    requires within { length bytes.now ≤ left }
    ensures gate { result ≡ gate_in left bytes.now }
    ensures open { (size : ℕ) → result ≡ Open size → 5 + size < left }
    ensures fits { (i : ℕ) → get_or bytes.now i 0 < 256 }
{
    gate_of(bytes, left)
}

// What stands at a gate's place of a file of length `end`, which the window comes to.
fn gate_at<D: Disk>(
    window: &mut Window,
    disk: &mut D,
    end: u64,
    at: u64,
) -> Result<Gate, JournalFault>
    requires most { end ≤ GREATEST_LIMIT }
    requires inside { at < end }
    requires first { window.old.start ≤ at }
    requires within { window.old.start + vec_len window.old.bytes ≤ end }
    requires ends { ForSome (D.reads disk.old) (λ file. length file ≡ end) }
    requires bytes { ForSome (D.reads disk.old) (λ file. AreAt file window.old.start window.old.bytes.items) }

    ensures gate { IfOk result (λ gate. ForSome (D.reads disk.old) (λ file. gate ≡ gate_in (end - at) (drop at file))) }
    ensures open { IfOk result (λ gate. (size : ℕ) → gate ≡ Open size → 5 + size < end - at) }
    ensures fits { IfOk result (λ gate. ForSome (D.reads disk.old) (λ file.
        (i : ℕ) → get_or (take 4 (drop (at + 1) file)) i 0 < 256)) }
    ensures room { vec_len window.new.bytes ≤ max (vec_len window.old.bytes) 65536 }
    ensures first { window.new.start ≤ at }
    ensures within { window.new.start + vec_len window.new.bytes ≤ end }
    ensures bytes { ForSome (D.reads disk.old) (λ file. AreAt file window.new.start window.new.bytes.items) }
    ensures fault { IfErr result (ReadFault (D.faults disk.old) (D.faults disk.new)) }
    ensures same { D.reads disk.new ≡ D.reads disk.old }
    ensures images { NoOther (D.images disk.old) (D.images disk.new) }
    ensures limit { D.limit disk.new ≡ D.limit disk.old }
    ensures counts { D.faults disk.old ≤ D.faults disk.new }
{
    let left = end - at;
    window.go_to(at);
    window.hold(disk, end, at, left.min(HEAD))?;
    Ok(gate_in_bytes(window.from(at), left))
}

// The place of the first closed gate, or the damage at an open one whose record is cut short.
fn walk_gates<D: Disk>(window: &mut Window, disk: &mut D, end: u64) -> Result<u64, JournalFault>
    requires long { 18 ≤ end }
    requires most { end ≤ GREATEST_LIMIT }
    requires first { window.old.start ≤ 16 }
    requires within { window.old.start + vec_len window.old.bytes ≤ end }
    requires ends { ForSome (D.reads disk.old) (λ file. length file ≡ end) }
    requires bytes { ForSome (D.reads disk.old) (λ file. AreAt file window.old.start window.old.bytes.items) }
    requires begun { ForSome (D.reads disk.old) (λ file. starts_with nat_eq file (header form_1) ≡ true) }

    ensures closes { IfOk result (λ gate. ForSome (D.reads disk.old) (λ file.
        (bodies : List (List ℕ)) × ClosesAt form_1 bodies gate file)) }
    ensures inside { IfOk result (λ gate. (16 ≤ gate) × (gate < end)) }
    ensures room { vec_len window.new.bytes ≤ max (vec_len window.old.bytes) 65536 }
    ensures fault { IfErr result (OpenFault (D.reads disk.old) (D.faults disk.old) (D.faults disk.new)) }
    ensures same { D.reads disk.new ≡ D.reads disk.old }
    ensures images { NoOther (D.images disk.old) (D.images disk.new) }
    ensures limit { D.limit disk.new ≡ D.limit disk.old }
    ensures counts { D.faults disk.old ≤ D.faults disk.new }
{
    let mut at = 16;
    let mut gate = gate_at(window, disk, end, at)?;
    while let Gate::Open(size) = gate {
        at += HEAD + size;
        gate = gate_at(window, disk, end, at)?;
    }
    match gate {
        Gate::Closed => Ok(at),
        Gate::Open(_) | Gate::CutShort | Gate::Missing => Err(JournalFault::Damaged(at)),
    }
}

/// The place of the closing gate of a file of this size, or the place from which on it is damaged. The
/// file is read through a window of 64 KiB; what a longer record holds isn't read.
pub(crate) fn find_closing_gate<D: Disk>(
    alloc: Global,
    disk: &mut D,
    size: u64,
) -> Result<u64, JournalFault>
    requires long { 18 ≤ size }
    requires small { size ≤ GREATEST_LIMIT }
    requires size { ForSome (D.reads disk.old) (λ file. size ≡ length file) }

    ensures closes { IfOk result (λ gate. ForSome (D.reads disk.old) (λ file.
        (bodies : List (List ℕ)) × ClosesAt form_1 bodies gate file)) }
    ensures inside { IfOk result (λ gate. (16 ≤ gate) × (gate < size)) }
    ensures fault { IfErr result (OpenFault (D.reads disk.old) (D.faults disk.old) (D.faults disk.new)) }
    ensures same { D.reads disk.new ≡ D.reads disk.old }
    ensures images { NoOther (D.images disk.old) (D.images disk.new) }
    ensures limit { D.limit disk.new ≡ D.limit disk.old }
    ensures counts { D.faults disk.old ≤ D.faults disk.new }
{
    let mut window = Window {
        start: 0,
        bytes: Vec::new(alloc),
    };
    window.hold(disk, size, 0, 16)?;
    if !window.from(0).starts_with(&HEADER) {
        return Err(JournalFault::Damaged(0));
    }
    walk_gates(&mut window, disk, size)
}
