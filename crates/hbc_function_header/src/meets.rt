// Whether what a function is read from shares a byte with a span of the file.
ghost use Rattle.std.specs.Prelude.{◌≡◌, Some};
ghost use Rattle.hbc_function_header.specs.Meets.{overlap, ground_meets};

use crate::Ground;

// Do the n bytes from a share one with those from low up to high? None is shared with an empty span.
#[tactic(auto, unfolding(crate::specs::Meets::overlap))]
fn overlaps(a: usize, n: usize, low: usize, high: usize) -> bool
    ensures { result ≡ overlap a n low high }
{
    if high <= a {
        return false;
    }
    if high <= low {
        return false;
    }
    if n == 0 {
        return false;
    }
    if low <= a {
        return true;
    }
    if n <= low - a {
        return false;
    }
    true
}

// Does a ground whose own header has `own` bytes and whose large one has `large` meet the span?
#[tactic(auto, unfolding(crate::specs::Meets::ground_meets))]
pub(crate) fn ground_meets(g: Ground, own: usize, large: usize, low: usize, high: usize) -> bool
    ensures { result ≡ ground_meets own large low high (Some g) }
{
    match g {
        Ground::Inline(at) => overlaps(at, own, low, high),
        Ground::Large(at, place) => {
            if overlaps(at, own, low, high) {
                return true;
            }
            overlaps(place, large, low, high)
        }
    }
}
