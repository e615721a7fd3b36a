//! Where elements stand in stretches.

ghost use Rattle.std.specs.Prelude.{◌≡◌, ◌+◌, ◌^◌, ◌<◌, ◌≤◌, ℕ, List, length, take, get_or, All, IfSome, IfNone};
ghost use Rattle.std.specs.List.{prefix_len, sum_by};
ghost use Rattle.std.specs.Ordering.{is_lt};
ghost use Rattle.bg_types.specs.Identifier.{id_cmp};
ghost use Rattle.rga_runs.specs.declared.stretch.Stretch.{Stretch as Kept};
ghost use Rattle.rga_runs.specs.Stretches.{count_in, visible_in, visible_of, BeginsElsewhere};

use crate::stretch::Stretch;
use bg_types::Id;

/// How many stretches are passed at once.
const TOGETHER: usize = 16;

/// Which stretch begins with an identifier. It is sought from a place on first.
pub fn begun_by(stretches: &[Stretch], hint: usize, first: Id) -> Option<usize>
    ensures there { IfSome result (λ j. j < length stretches.now) }
    ensures first { IfSome result (λ j. (d : Kept) → (get_or stretches.now j d).first ≡ first) }
    ensures absent { IfNone result (All (BeginsElsewhere first) stretches.now) }
{
    let from = hint.min(stretches.len());
    let (front, behind) = stretches.split_at(from);
    match first_begun_by(behind, first) {
        Some(j) => Some(from + j),
        None => first_begun_by(front, first),
    }
}

/// The first stretch that begins with an identifier.
fn first_begun_by(stretches: &[Stretch], first: Id) -> Option<usize>
    ensures there { IfSome result (λ j. j < length stretches.now) }
    ensures first { IfSome result (λ j. (d : Kept) → (get_or stretches.now j d).first ≡ first) }
    ensures absent { IfNone result (All (BeginsElsewhere first) stretches.now) }
{
    for j in 0..stretches.len() {
        if stretches[j].first == first {
            return Some(j);
        }
    }
    None
}

/// Where element j of so many stands: its stretch, and its place there. It is sought from the end to which it is nearer.
pub fn spot_of(stretches: &[Stretch], count: usize, j: usize) -> (usize, usize)
    requires count { count ≡ count_in stretches.now }
    requires there { j < count }
    ensures block { result.0 < length stretches.now }
    ensures within { (d : Kept) → result.1 < (get_or stretches.now result.0 d).count }
    ensures place { count_in (take result.0 stretches.now) + result.1 ≡ j }
{
    let (from, rest) = if j < count / 2 {
        pass_front(stretches, j)
    } else {
        pass_back(stretches, count - j)
    };
    let mut left = rest;
    for p in from..stretches.len() {
        let count = stretches[p].len();
        if left < count {
            return (p, left);
        }
        left -= count;
    }
    unreachable!()
}

/// Passes stretches from the end, some at once, as long as the first of the last n elements isn't among them: how many are before
/// that, and how many elements there are then before it.
fn pass_back(stretches: &[Stretch], n: usize) -> (usize, usize)
    requires { n ≤ count_in stretches.now }
    ensures there { result.0 ≤ length stretches.now }
    ensures before { count_in (take result.0 stretches.now) + result.1 + n ≡ count_in stretches.now }
{
    let mut behind = n;
    let mut end = stretches.len();
    while TOGETHER <= end {
        let count = count_all(&stretches[end - TOGETHER..end]);
        if behind <= count {
            return (end - TOGETHER, count - behind);
        }
        behind -= count;
        end -= TOGETHER;
    }
    (0, count_all(&stretches[..end]) - behind)
}

/// Passes stretches from the front, some at once, as long as element j isn't among them: how many these are, and how many of the j
/// elements before it are left.
fn pass_front(stretches: &[Stretch], j: usize) -> (usize, usize)
    ensures there { result.0 ≤ length stretches.now }
    ensures before { count_in (take result.0 stretches.now) + result.1 ≡ j }
{
    let mut left = j;
    let mut passed = 0;
    while TOGETHER <= stretches.len() - passed {
        let count = count_all(&stretches[passed..passed + TOGETHER]);
        if left < count {
            return (passed, left);
        }
        left -= count;
        passed += TOGETHER;
    }
    (passed, left)
}

/// The stretch that has visible element k, and how many visible ones are before it there.
pub fn visible_stretch(stretches: &[Stretch], k: usize) -> (usize, usize)
    requires { k < visible_in stretches.now }
    ensures block { result.0 < length stretches.now }
    ensures within { (d : Kept) → result.1 < visible_of (get_or stretches.now result.0 d) }
    ensures place { visible_in (take result.0 stretches.now) + result.1 ≡ k }
{
    let mut left = k;
    for p in 0..stretches.len() {
        let visible = stretches[p].visible();
        if left < visible {
            return (p, left);
        }
        left -= visible;
    }
    unreachable!()
}

/// How many elements of these stretches are visible.
pub fn count_visible(stretches: &[Stretch]) -> usize
    requires { visible_in stretches.now < 2 ^ 64 }
    ensures { result ≡ visible_in stretches.now }
{
    let mut visible = 0;
    for stretch in stretches {
        visible += stretch.visible();
    }
    visible
}

/// How many characters these stretches have.
pub fn count_all(stretches: &[Stretch]) -> usize
    requires { count_in stretches.now < 2 ^ 64 }
    ensures { result ≡ count_in stretches.now }
{
    let mut count = 0;
    for stretch in stretches {
        count += stretch.len();
    }
    count
}

/// How many stretches at the front begin with a greater identifier. What follows in a stretch is greater still.
pub fn greater_in_front(stretches: &[Stretch], id: Id) -> usize
    ensures count { result ≡ prefix_len (λ s. is_lt (id_cmp id s.first)) stretches.now }
    ensures within { result ≤ length stretches.now }
{
    stretches.iter().take_while(|s| id < s.first).count()
}
