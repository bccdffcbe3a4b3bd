ghost use Rattle.std.specs.Prelude.{◌≡◌, ◌≢◌, ◌<◌, [], true, false, take, All, IfOk, OnOk, IfSome, IfNone, ℕ, length, map, slice_index, slice_index_or, drop, ◌≤◌, ◌==◌, if◌then◌else◌, ◌↔◌, ◌^◌, ◌-◌, IfErr};
ghost use Rattle.conley_algebra.specs.Others.{other};
ghost use Rattle.std.specs.List.Sorted.{IsStrictlyIncreasing};
ghost use Rattle.conley_chains.specs.Chain.{coefficient, IsChain, HasCodes, first_place};
ghost use Rattle.conley_chains.specs.Sums.{IsChainSum, IsChainPart};
ghost use Rattle.conley_chains.specs.Placing.{pair_of};
ghost use Rattle.conley_chains.specs.Faults.{fault_at, IsFaultless, IsFirstFault};

use crate::placing::{Placed, place_pairs, sort_by_place};
use crate::{MatrixError, NoMemory};
use conley_field::{Field, Scalar};
use smallvec::SmallVec;
use std::alloc::Global;
use std::marker::Model;

/// A finite map from places to scalars other than zero.
#[derive(Drop)]
pub struct Chain {
    kept: SmallVec<(u32, Scalar), 4>,
}

impl Model for Chain {
    ghost use Rattle.std.specs.Prelude.{List, ℕ};
    ghost use Rattle.conley_chains.specs.Chain.{IsChain};

    ghost Value = { List (ℕ × ℕ) };

    ghost view = { λ c. c.kept.items };

    ghost invariant = { λ c. IsChain c.kept.items };
}

impl Chain {
    /// The chain that keeps nothing. It takes no memory.
    pub fn new(alloc: Global) -> Chain
        ensures { result ≡ [] }
    {
        Chain {
            kept: SmallVec::new(alloc),
        }
    }

    /// The chain that keeps nothing yet, with room for a number of entries.
    pub(crate) fn with_room(alloc: Global, count: usize) -> Result<Chain, NoMemory>
        ensures { IfOk result (λ chain. chain ≡ []) }
    {
        Ok(Chain {
            kept: SmallVec::with_capacity(alloc, count)?,
        })
    }

    /// The chain with these entries, whose places ascend and are distinct, and of which none is zero.
    pub fn from_pairs(alloc: Global, pairs: &[(u32, Scalar)]) -> Result<Chain, NoMemory>
        requires { IsChain pairs.now }
        ensures { IfOk result (λ chain. chain ≡ pairs.now) }
    {
        Ok(Chain {
            kept: SmallVec::from_slice(alloc, pairs)?,
        })
    }

    /// The chain with these entries, each a place and a code, in any order. The least entry with a fault is refused: `Range` where its code
    /// is not below the order, then `Zero` where the code is 0, then `Repeated` where its place stood before; the number is that of the entry.
    pub fn from_entries<F: Field>(
        alloc: Global,
        field: &F,
        entries: &[(u32, u8)],
    ) -> Result<Chain, MatrixError>
        requires few { length entries.now < 2 ^ 32 - 1 }
        ensures faultless { OnOk result (IsFaultless (fault_at (F.arithmetic field.now).order entries.now) (length entries.now)) }
        ensures entries { IfOk result (λ chain. (place : ℕ) → coefficient chain place ≡ coefficient entries.now place) }
        ensures codes { IfOk result (HasCodes (F.arithmetic field.now)) }
        ensures first { IfErr result (λ error. error ≢ MatrixError.NoMemory →
            IsFirstFault (fault_at (F.arithmetic field.now).order entries.now) (length entries.now) error) }
    {
        let (mut placed, fault) = place_pairs(alloc, field.order(), entries)?;
        if let Some(k) = sort_by_place(&mut placed) {
            return Err(MatrixError::Repeated(k));
        }
        if let Some(error) = fault {
            return Err(error);
        }
        Ok(Chain::from_placed(alloc, &placed)?)
    }

    /// The chain of entries of one column, which stand in order and are not zero.
    pub(crate) fn from_placed(alloc: Global, placed: &[Placed]) -> Result<Chain, NoMemory>
        requires { IsChain (map pair_of placed.now) }
        ensures { IfOk result (λ chain. chain ≡ map pair_of placed.now) }
    {
        let mut kept = SmallVec::new(alloc);
        for entry in placed {
            kept.push((entry.row, Scalar::of(entry.code)))?;
        }
        Ok(Chain { kept })
    }

    /// The same chain once more.
    pub fn copy(&self, alloc: Global) -> Result<Chain, NoMemory>
        ensures { IfOk result (λ chain. chain ≡ self.now) }
    {
        Chain::from_pairs(alloc, self.entries())
    }

    /// The places that are kept, with their scalars, ascending by place. It takes no memory.
    pub fn entries(&self) -> &[(u32, Scalar)]
        ensures entries { result.now ≡ self.now }
        ensures chain { IsChain self.now }
    {
        self.kept.as_slice()
    }

    /// The scalar at a place, or zero where nothing is kept. It takes no memory.
    pub fn entry(&self, place: u32) -> Scalar
        ensures { result ≡ coefficient self.now place }
    {
        let entries = self.entries();
        let before = count_before(entries, place);
        if before < entries.len() && entries[before].0 == place {
            entries[before].1
        } else {
            Scalar::of(0)
        }
    }

    /// The entries at places other than `k` and `q`, numbered anew without the two.
    pub fn without(&self, alloc: Global, k: u32, q: u32) -> Result<Chain, NoMemory>
        requires { k ≢ q }
        ensures places { IfOk result (λ chain. (i : ℕ) → coefficient chain i ≡ coefficient self.now (other k q i)) }
        ensures codes { IfOk result (λ chain. (n : ℕ) → All (λ e. e.1 < n) self.now → All (λ e. e.1 < n) chain) }
    {
        let mut rest = Chain::new(alloc);
        for e in self.entries() {
            if e.0 != k && e.0 != q {
                rest.put(place_among(k, q, e.0), e.1)?;
            }
        }
        Ok(rest)
    }

    /// A scalar at a place beyond all others. Zero isn't kept.
    pub(crate) fn put(&mut self, place: u32, scalar: Scalar) -> Result<(), NoMemory>
        requires { All (λ e. e.0 < place) self.old }
        ensures codes { OnOk result ((place' : ℕ) → coefficient self.new place' ≡ (if place' == place then scalar else coefficient self.old place')) }
        ensures places { OnOk result (All (λ e. e.0 ≤ place) self.new) }
        ensures below { OnOk result ((n : ℕ) → scalar < n → All (λ e. e.1 < n) self.old → All (λ e. e.1 < n) self.new) }
    {
        if scalar.code() != 0 {
            self.kept.push((place, scalar))?;
        }
        Ok(())
    }

    /// The chain plus `by` times another, in one pass over both.
    pub fn plus<F: Field>(
        &self,
        alloc: Global,
        field: &F,
        by: Scalar,
        other: &Chain,
    ) -> Result<Chain, NoMemory>
        requires codes { HasCodes (F.arithmetic field.now) self.now }
        requires by_below { by < (F.arithmetic field.now).order }
        requires other_codes { HasCodes (F.arithmetic field.now) other.now }
        ensures sum { IfOk result (IsChainSum (F.arithmetic field.now) self.now by other.now) }
        ensures chain { IfOk result IsChain }
        ensures codes { IfOk result (HasCodes (F.arithmetic field.now)) }
    {
        let a = self.entries();
        let b = other.entries();
        let mut sum = Chain::with_room(alloc, a.len().saturating_add(b.len()))?;
        let mut i = 0;
        let mut j = 0;
        while i < a.len() || j < b.len() {
            let p = next_place(a, i);
            let q = next_place(b, j);
            if p < q {
                let e = a[i];
                sum.put(e.0, e.1)?;
                i += 1;
            } else if q < p {
                let f = b[j];
                sum.put(f.0, times(field, by, f.1))?;
                j += 1;
            } else {
                let e = a[i];
                let f = b[j];
                sum.put(e.0, field.add(e.1, times(field, by, f.1)))?;
                i += 1;
                j += 1;
            }
        }
        sum.entries();
        Ok(sum)
    }

    /// The chain with `by` times another added. What lies before all places of the other stays where it is; where less than half stays, both
    /// are put into a new list. Where there is no memory, the chain handed over is dropped.
    pub fn add_scaled<F: Field>(
        mut self,
        alloc: Global,
        field: &F,
        by: Scalar,
        other: &Chain,
    ) -> Result<Chain, NoMemory>
        requires codes { HasCodes (F.arithmetic field.now) self }
        requires by_below { by < (F.arithmetic field.now).order }
        requires other_codes { HasCodes (F.arithmetic field.now) other.now }
        ensures sum { IfOk result (IsChainSum (F.arithmetic field.now) self by other.now) }
        ensures codes { IfOk result (HasCodes (F.arithmetic field.now)) }
    {
        if starts_beyond(other.entries(), self.entries()) {
            self.append(field, by, other)?;
            return Ok(self);
        }
        let count = self.entries().len();
        let first = other.entries()[0].0;
        let before = count_before(self.entries(), first);
        if before < count / 2 {
            return self.plus(alloc, field, by, other);
        }
        let rest = self.split_off(alloc, before)?;
        let sum = rest.plus(alloc, field, by, other)?;
        self.append(field, field.one(), &sum)?;
        Ok(self)
    }

    /// Takes away the entries from an index on.
    fn split_off(&mut self, alloc: Global, index: usize) -> Result<Chain, NoMemory>
        requires { index ≤ length self.old }
        ensures kept { OnOk result (self.new ≡ take index self.old) }
        ensures rest { IfOk result (λ rest. rest ≡ drop index self.old) }
    {
        let rest = Chain::from_pairs(alloc, &self.entries()[index..])?;
        self.kept.truncate(index);
        Ok(rest)
    }

    /// The same of a chain whose places lie beyond those of this one.
    fn append<F: Field>(&mut self, field: &F, by: Scalar, other: &Chain) -> Result<(), NoMemory>
        requires codes { HasCodes (F.arithmetic field.now) self.old }
        requires by_below { by < (F.arithmetic field.now).order }
        requires other_codes { HasCodes (F.arithmetic field.now) other.now }
        requires beyond { All (λ e. e.0 < first_place other.now) self.old }
        ensures sum { OnOk result (IsChainSum (F.arithmetic field.now) self.old by other.now self.new) }
        ensures codes { OnOk result (HasCodes (F.arithmetic field.now) self.new) }
    {
        for e in other.entries() {
            self.put(e.0, times(field, by, e.1))?;
        }
        Ok(())
    }

    /// The entries at the listed places, which ascend: the entry at the i-th of them stands at place i.
    pub fn restrict(&self, alloc: Global, places: &[u32]) -> Result<Chain, NoMemory>
        requires ascending { IsStrictlyIncreasing places.now }
        requires few { length places.now < 2 ^ 32 }
        ensures entries { IfOk result (IsChainPart places.now self.now) }
        ensures beyond { IfOk result (λ part. (i : ℕ) → length places.now ≤ i → coefficient part i ≡ 0) }
        ensures codes { IfOk result (λ part. (n : ℕ) → All (λ e. e.1 < n) self.now → All (λ e. e.1 < n) part) }
    {
        let mut part = Chain::new(alloc);
        for e in self.entries() {
            if let Some(i) = place_of(places, e.0) {
                part.put(i as u32, e.1)?;
            }
        }
        Ok(part)
    }
}

/// `by` times a scalar, with no product where `by` is one.
pub(crate) fn times<F: Field>(field: &F, by: Scalar, scalar: Scalar) -> Scalar
    requires by_below { by < (F.arithmetic field.now).order }
    requires below { scalar < (F.arithmetic field.now).order }
    ensures { result ≡ (F.arithmetic field.now).mul by scalar }
{
    if by.code() == 1 {
        scalar
    } else {
        field.mul(by, scalar)
    }
}

/// Whether the first of some entries stands beyond all others.
fn starts_beyond(entries: &[(u32, Scalar)], others: &[(u32, Scalar)]) -> bool
    requires { IsChain others.now }
    ensures beyond { result ≡ true → All (λ e. e.0 < first_place entries.now) others.now }
    ensures most { first_place entries.now ≤ 2 ^ 32 }
    ensures some { result ≡ false → (0 < length entries.now) × (0 < length others.now) }
{
    let first = next_place(entries, 0);
    let count = others.len();
    if count == 0 {
        return true;
    }
    let last = others[count - 1];
    (last.0 as u64) < first
}

/// Where a number stands in an ascending list.
fn place_of(places: &[u32], place: u32) -> Option<usize>
    requires { IsStrictlyIncreasing places.now }
    ensures some { IfSome result (λ i. (i < length places.now) × (slice_index places.now i ≡ place)) }
    ensures none { IfNone result ((i : ℕ) → i < length places.now → slice_index places.now i ≢ place) }
{
    match places.binary_search(&place) {
        Ok(i) => Some(i),
        Err(_) => None,
    }
}

/// Where a number stands among those other than two.
fn place_among(k: u32, q: u32, number: u32) -> u32
    requires differ { k ≢ q }
    requires not_k { number ≢ k }
    requires not_q { number ≢ q }
    ensures { other k q result ≡ number }
{
    if number < k && number < q {
        number
    } else if number < k || number < q {
        number - 1
    } else {
        number - 2
    }
}

/// The place of the entry at an index, or a number beyond all places.
fn next_place(entries: &[(u32, Scalar)], index: usize) -> u64
    ensures place { result ≡ first_place (drop index entries.now) }
    ensures most { result ≤ 2 ^ 32 }
    ensures within { (result < 2 ^ 32) ↔ (index < length entries.now) }
{
    if index < entries.len() {
        entries[index].0 as u64
    } else {
        1 << 32
    }
}

/// How many of the entries stand before a place.
fn count_before(entries: &[(u32, Scalar)], place: u32) -> usize
    requires { IsChain entries.now }
    ensures within { result ≤ length entries.now }
    ensures before { (k : ℕ) (d : ℕ × ℕ) → k < result → (slice_index_or entries.now k d).0 < place }
    ensures after { (k : ℕ) (d : ℕ × ℕ) → result ≤ k → k < length entries.now → place ≤ (slice_index_or entries.now k d).0 }
{
    entries.partition_point(|e| e.0 < place)
}
