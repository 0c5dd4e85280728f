//! Planes (document 01): for each image l words of x bits and l of z bits. Image 2q is the x image of qubit q, image 2q + 1 its z image.
//! What the words stand for: specs/Planes.antt; what each loop does to them: specs/Code/RawPlanes.antt.

ghost use Rattle.std.specs.Prelude.{◌≡◌, false, cond, List, ◌++◌, ℕ, ◌+◌, ◌-◌, ◌*◌, ◌/◌, ◌<◌, ◌≤◌, ◌^◌, length, get_or, nat_lt};
ghost use Rattle.pauli.specs.Rows.{Row};
ghost use Rattle.convert.specs.Records.{AtMost, lower_as, AllProper};
ghost use Rattle.arena.specs.Limits.{max_qubits};
ghost use Rattle.convert.specs.Planes.{part_words, packed};
ghost use Rattle.convert.specs.Code.Raw.{any_exceeds, refreshed, Decided};
ghost use Rattle.convert.specs.Code.RawPlanes.{Wide, xor_to, swap_to, joint_to, product_to, any_of, union_to, plane_reset, clear_to, mark_at, Restored, Since, seven_above};

use crate::gate::{Gate, GateKind, gate_at};
use crate::lowered::FrameGates;

// The words at a place take up those at another.
// kept: two parts of one slice, of which either may come first: `split_at_mut` would ask which.
fn xor_words(words: &mut [u64], target: usize, source: usize, count: usize)
    requires { (target + count ≤ length words.old) × (source + count ≤ length words.old) }
    ensures { words.new ≡ xor_to words.old target source count }
{
    for k in 0..count {
        words[target + k] ^= words[source + k];
    }
}

// The words at two places change theirs.
// kept: as `xor_words`.
fn swap_words(words: &mut [u64], one: usize, other: usize, count: usize)
    requires { (one + count ≤ length words.old) × (other + count ≤ length words.old) }
    ensures { words.new ≡ swap_to words.old one other count }
{
    for k in 0..count {
        let w = words[one + k];
        words[one + k] = words[other + k];
        words[other + k] = w;
    }
}

// kept: tried `fill` of the part; the check does not find that `clear_to`, which goes word by word, is it.
fn clear(words: &mut [u64], first: usize, count: usize)
    requires { first + count ≤ length words.old }
    ensures { words.new ≡ clear_to words.old first count }
{
    for k in 0..count {
        words[first + k] = 0;
    }
}

// The exclusive-or of the words of some images at a place of theirs.
fn joint(words: &[u64], stride: usize, images: &[usize], at: usize) -> u64
    requires { (i : ℕ) → i < length images.now → get_or images.now i 0 * stride + at < length words.now }
    ensures { result ≡ joint_to words.now stride at images.now (length images.now) }
{
    let mut word: u64 = 0;
    for &image in images {
        word ^= words[image * stride + at];
    }
    word
}

// The or of the words at k of three images.
fn any_of(words: &[u64], a: usize, b: usize, d: usize, k: usize) -> u64
    requires { (a + k < length words.now) × (b + k < length words.now) × (d + k < length words.now) }
    ensures { result ≡ any_of words.now a b d k }
{
    words[a + k] | words[b + k] | words[d + k]
}

pub(crate) fn bit(k: usize) -> u64
    requires { k < 64 }
    ensures { result ≡ 2 ^ k }
{
    1u64 << (k as u32)
}

/// The plane words lent to a conversion, and their size: `width` words of x bits and as many of z bits for each image.
#[derive(Drop)]
pub(crate) struct Planes<'a> {
    pub(crate) words: &'a mut [u64],
    pub(crate) qubits: usize,
    pub(crate) width: usize,
    ghost few: { qubits ≤ max_qubits },
    ghost parts: { width ≡ part_words qubits },
    ghost room: { (qubits + qubits) * (width + width) ≤ length words.now },
}

impl Planes<'_> {
    // One image takes up another.
    // kept: a `&mut self` method says itself that it lends the same words and keeps both sizes: a ghost field speaks of one value, not of before and after.
    fn xor_into(&mut self, target: usize, source: usize)
        requires images { (target < self.old.qubits + self.old.qubits) × (source < self.old.qubits + self.old.qubits) }
        ensures after { self.new.words.now ≡ xor_to self.old.words.now (target * (self.old.width + self.old.width)) (source * (self.old.width + self.old.width)) (self.old.width + self.old.width) }
        ensures lent { self.new.words.ghost_name ≡ self.old.words.ghost_name }
        ensures same { (self.new.qubits ≡ self.old.qubits) × (self.new.width ≡ self.old.width) }
    {
        let stride = self.width + self.width;
        let t = target * stride;
        let s = source * stride;
        xor_words(self.words, t, s, stride);
    }

    // kept: as `xor_into`.
    fn exchange(&mut self, one: usize, other: usize)
        requires images { (one < self.old.qubits + self.old.qubits) × (other < self.old.qubits + self.old.qubits) }
        ensures after { self.new.words.now ≡ swap_to self.old.words.now (one * (self.old.width + self.old.width)) (other * (self.old.width + self.old.width)) (self.old.width + self.old.width) }
        ensures lent { self.new.words.ghost_name ≡ self.old.words.ghost_name }
        ensures same { (self.new.qubits ≡ self.old.qubits) × (self.new.width ≡ self.old.width) }
    {
        let stride = self.width + self.width;
        let a = one * stride;
        let b = other * stride;
        swap_words(self.words, a, b, stride);
    }

    // The weight of the product of some images.
    // kept: beside `weigh_union`, which is an or: without that test first, drafts took 1.10 to 1.20 times the instructions under a cap (random lists).
    fn weigh(&self, images: &[usize]) -> u32
        requires { (i : ℕ) → i < length images.now → get_or images.now i 0 < self.now.qubits + self.now.qubits }
        ensures { result ≡ product_to self.now.words.now self.now.width images.now self.now.width }
    {
        weight_of(self.words, self.width, images)
    }

    fn exceeds(&self, cap: u32, images: &[usize]) -> bool
        requires { (i : ℕ) → i < length images.now → get_or images.now i 0 < self.now.qubits + self.now.qubits }
        ensures { result ≡ nat_lt cap (product_to self.now.words.now self.now.width images.now self.now.width) }
    {
        cap < self.weigh(images)
    }

    // The qubits on which one of three images has a letter: no product of them weighs more.
    // kept: as `weigh`.
    fn weigh_union(&self, a: usize, b: usize, d: usize) -> u32
        requires { (a < self.now.qubits + self.now.qubits) × (b < self.now.qubits + self.now.qubits) × (d < self.now.qubits + self.now.qubits) }
        ensures { result ≡ union_to self.now.words.now self.now.width (a * (self.now.width + self.now.width)) (b * (self.now.width + self.now.width)) (d * (self.now.width + self.now.width)) self.now.width }
    {
        let stride = self.width + self.width;
        union_of(self.words, self.width, a * stride, b * stride, d * stride)
    }

    // X and Z of qubit q.
    // kept: as `xor_into`.
    fn mark(&mut self, q: usize)
        requires qubit { q < self.old.qubits }
        ensures after { self.new.words.now ≡ mark_at self.old.words.now self.old.width q }
        ensures lent { self.new.words.ghost_name ≡ self.old.words.ghost_name }
        ensures same { (self.new.qubits ≡ self.old.qubits) × (self.new.width ≡ self.old.width) }
    {
        mark_words(self.words, self.qubits, self.width, q);
    }

    // All planes as at the start.
    // kept: as `xor_into`.
    pub(crate) fn reset(&mut self)
        ensures after { self.new.words.now ≡ plane_reset self.old.qubits self.old.width self.old.words.now }
        ensures lent { self.new.words.ghost_name ≡ self.old.words.ghost_name }
        ensures same { (self.new.qubits ≡ self.old.qubits) × (self.new.width ≡ self.old.width) }
    {
        reset_words(self.words, self.qubits, self.width);
    }

    // The images of a qubit as at the start, if it is below n.
    // kept: as `xor_into`.
    fn restore(&mut self, q: usize)
        ensures after { Restored self.old.qubits self.old.width q self.old.words.now self.new.words.now }
        ensures lent { self.new.words.ghost_name ≡ self.old.words.ghost_name }
        ensures same { (self.new.qubits ≡ self.old.qubits) × (self.new.width ≡ self.old.width) }
    {
        if self.qubits <= q {
            return;
        }
        let stride = self.width + self.width;
        clear(self.words, (q + q) * stride, stride + stride);
        self.mark(q);
    }

    // All planes as at the start, where only the records from one to another may have changed them. Not every second operand is a qubit of the gate:
    // to restore one too many changes nothing.
    // kept: as `xor_into`; `Since` speaks of the whole list and two numbers of records, not of a part of it.
    fn restore_since(&mut self, gates: &[u32], from: usize, to: usize)
        requires from_le_to { (from ≤ to) × (to ≤ length gates.now / 4) }
        requires since { Since self.old.qubits self.old.width self.old.words.now gates.now from (to - from) }
        ensures after { self.new.words.now ≡ plane_reset self.old.qubits self.old.width self.old.words.now }
        ensures lent { self.new.words.ghost_name ≡ self.old.words.ghost_name }
        ensures same { (self.new.qubits ≡ self.old.qubits) × (self.new.width ≡ self.old.width) }
    {
        for i in from..to {
            let gate = gate_at(gates, i);
            self.restore(gate.a);
            self.restore(gate.b);
        }
    }

    // Whether one of the seven products of three images weighs more than the cap.
    fn seven(&self, cap: u32, a: usize, b: usize, d: usize) -> bool
        requires { (a < self.now.qubits + self.now.qubits) × (b < self.now.qubits + self.now.qubits) × (d < self.now.qubits + self.now.qubits) }
        ensures { result ≡ seven_above self.now.words.now self.now.width cap (a * (self.now.width + self.now.width)) (b * (self.now.width + self.now.width)) (d * (self.now.width + self.now.width)) }
    {
        if self.weigh_union(a, b, d) <= cap {
            return false;
        }
        self.exceeds(cap, &[a])
            || self.exceeds(cap, &[b])
            || self.exceeds(cap, &[d])
            || self.exceeds(cap, &[a, b])
            || self.exceeds(cap, &[a, d])
            || self.exceeds(cap, &[b, d])
            || self.exceeds(cap, &[a, b, d])
    }

    // Whether what is tested before a gate weighs more than the cap.
    // kept: that its operands are among n qubits is a fact of the gate and of n, which `Gate` does not hold.
    #[inline(always)]
    fn heavy(&self, cap: u32, gate: Gate) -> bool
        requires all_proper { AllProper self.now.qubits (gate.b + 1) (lower_as gate.kind gate.a gate.b gate.d) }
        ensures { (t : List Row) (rest : List ℕ) → Wide self.now.qubits t → self.now.words.now ≡ packed self.now.qubits t ++ rest → result ≡ any_exceeds self.now.qubits (AtMost cap) t (lower_as gate.kind gate.a gate.b gate.d) }
    {
        let Gate { kind, a, b, d } = gate;
        match kind {
            GateKind::T | GateKind::Tdg | GateKind::Measure => self.exceeds(cap, &[a + a + 1]),
            GateKind::Ccx => self.seven(cap, a + a + 1, b + b + 1, d + d),
            GateKind::Ccz => self.seven(cap, a + a + 1, b + b + 1, d + d + 1),
            _ => false,
        }
    }

    // kept: as `xor_into`; the promise takes the flag (`refreshed`).
    fn refresh(&mut self, flushed: bool)
        ensures after { self.new.words.now ≡ refreshed flushed self.old.qubits self.old.width self.old.words.now }
        ensures lent { self.new.words.ghost_name ≡ self.old.words.ghost_name }
        ensures same { (self.new.qubits ≡ self.old.qubits) × (self.new.width ≡ self.old.width) }
    {
        if !flushed {
            return;
        }
        self.reset();
    }

    // Whether a flush comes before this record; the planes go past it. A record is tested or has frame gates, never both.
    // kept: as `xor_into`; beside `decide_since`, since the counting pass knows no place of the last flush.
    pub(crate) fn decide(&mut self, most: u32, gate: Gate) -> bool
        requires all_proper { AllProper self.old.qubits (gate.b + 1) (lower_as gate.kind gate.a gate.b gate.d) }
        ensures after { Decided self.old.qubits (AtMost most) gate.kind gate.a gate.b gate.d self.old.words.now result self.new.words.now }
        ensures lent { self.new.words.ghost_name ≡ self.old.words.ghost_name }
        ensures same { (self.new.qubits ≡ self.old.qubits) × (self.new.width ≡ self.old.width) }
    {
        if gate.kind.tests() == 0 {
            self.record(gate.kind, gate.a, gate.b);
            return false;
        }
        let flushed = self.heavy(most, gate);
        self.refresh(flushed);
        flushed
    }

    // A refresh where, without a narrow cap, only the records from one to another may have changed the planes: where they are few, only what they touch is
    // restored.
    // kept: as `restore_since` and `refresh`.
    fn refresh_since<const NARROW: bool>(
        &mut self,
        flushed: bool,
        gates: &[u32],
        from: usize,
        to: usize,
    )
        requires from_le_to { (NARROW ≡ false → from ≤ to) × (to ≤ length gates.now / 4) }
        requires since { NARROW ≡ false → Since self.old.qubits self.old.width self.old.words.now gates.now from (to - from) }
        ensures after { self.new.words.now ≡ refreshed flushed self.old.qubits self.old.width self.old.words.now }
        ensures lent { self.new.words.ghost_name ≡ self.old.words.ghost_name }
        ensures same { (self.new.qubits ≡ self.old.qubits) × (self.new.width ≡ self.old.width) }
    {
        if !flushed {
            return;
        }
        if NARROW {
            self.reset();
            return;
        }
        if self.qubits / 4 <= to - from {
            self.reset();
            return;
        }
        self.restore_since(gates, from, to);
    }

    // The same decision about record `to`, where the last flush came before record `from`.
    // kept: as `restore_since`; beside `decide`, see there.
    #[inline(always)]
    pub(crate) fn decide_since<const NARROW: bool>(
        &mut self,
        most: u32,
        gate: Gate,
        gates: &[u32],
        from: usize,
        to: usize,
    ) -> bool
        requires all_proper { AllProper self.old.qubits (gate.b + 1) (lower_as gate.kind gate.a gate.b gate.d) }
        requires from_le_to { (NARROW ≡ false → from ≤ to) × (to < length gates.now / 4) × (NARROW ≡ false → (gate.a ≡ get_or gates.now (4 * to + 1) 0) × (gate.b ≡ get_or gates.now (4 * to + 2) 0)) }
        requires since { NARROW ≡ false → Since self.old.qubits self.old.width self.old.words.now gates.now from (to - from) }
        ensures decided { Decided self.old.qubits (AtMost most) gate.kind gate.a gate.b gate.d self.old.words.now result self.new.words.now }
        ensures since_2 { NARROW ≡ false → Since self.old.qubits self.old.width self.new.words.now gates.now (cond result to from) (to + 1 - cond result to from) }
        ensures lent { self.new.words.ghost_name ≡ self.old.words.ghost_name }
        ensures same { (self.new.qubits ≡ self.old.qubits) × (self.new.width ≡ self.old.width) }
    {
        if gate.kind.tests() == 0 {
            self.record(gate.kind, gate.a, gate.b);
            return false;
        }
        let flushed = self.heavy(most, gate);
        self.refresh_since::<NARROW>(flushed, gates, from, to);
        flushed
    }
}

// The words of a gate's images alone; signs have none.
impl FrameGates for Planes<'_> {
    ghost use Rattle.convert.specs.Code.PlaneGates.{PlanesReady, PlanesDone, planes_head, planes_tail, planes_none, planes_more};

    ghost Ready = { PlanesReady };

    ghost Done = { PlanesDone };

    fn h(&mut self, q: usize) {
        self.exchange(q + q, q + q + 1);
    }

    fn x(&mut self, q: usize) {}

    fn z(&mut self, q: usize) {}

    fn s(&mut self, q: usize) {
        self.xor_into(q + q, q + q + 1);
    }

    fn sdg(&mut self, q: usize) {
        self.xor_into(q + q, q + q + 1);
    }

    fn cnot(&mut self, c: usize, t: usize) {
        self.xor_into(c + c, t + t);
        self.xor_into(t + t + 1, c + c + 1);
    }

    fn cz(&mut self, c: usize, t: usize) {
        self.xor_into(c + c, t + t + 1);
        self.xor_into(t + t, c + c + 1);
    }

    ghost head = { planes_head };

    ghost tail = { planes_tail };

    ghost none = { planes_none };

    ghost more = { planes_more };
}

// The weight of the product of some images.
fn weight_of(words: &[u64], l: usize, images: &[usize]) -> u32
    requires { ((i : ℕ) → i < length images.now → get_or images.now i 0 * (l + l) + (l + l) ≤ length words.now) × (l ≤ 4096) }
    ensures { result ≡ product_to words.now l images.now l }
{
    let stride = l + l;
    let mut sum: u32 = 0;
    for k in 0..l {
        let x = joint(words, stride, images, k);
        let z = joint(words, stride, images, l + k);
        sum += u64::count_ones(x | z);
    }
    sum
}

// The qubits on which one of the images at three places has a letter.
fn union_of(words: &[u64], l: usize, one: usize, two: usize, three: usize) -> u32
    requires { (one + (l + l) ≤ length words.now) × (two + (l + l) ≤ length words.now) × (three + (l + l) ≤ length words.now) × (l ≤ 4096) }
    ensures { result ≡ union_to words.now l one two three l }
{
    let mut sum: u32 = 0;
    for k in 0..l {
        let any_x = any_of(words, one, two, three, k);
        let any_z = any_of(words, one, two, three, l + k);
        sum += u64::count_ones(any_x | any_z);
    }
    sum
}

fn mark_words(words: &mut [u64], n: usize, l: usize, q: usize)
    requires { (q < n) × (q / 64 < l) × ((n + n) * (l + l) ≤ length words.old) × (n ≤ max_qubits) }
    ensures { words.new ≡ mark_at words.old l q }
{
    let w = bit(q % 64);
    let x = (q + q) * (l + l) + q / 64;
    let z = (q + q + 1) * (l + l) + (l + q / 64);
    words[x] = w;
    words[z] = w;
}

fn reset_words(words: &mut [u64], n: usize, l: usize)
    requires { ((n + 63) / 64 ≤ l) × (l ≤ 4) × ((n + n) * (l + l) ≤ length words.old) × (n ≤ max_qubits) }
    ensures { words.new ≡ plane_reset n l words.old }
{
    clear(words, 0, (n + n) * (l + l));
    for q in 0..n {
        mark_words(words, n, l, q);
    }
}
