//! What it means to be held, and what a commit puts.
ghost use Rattle.std.specs.Prelude.{◌≡◌, ◌≢◌, ◌↔◌, ℕ, ◌+◌, ◌*◌, ◌%◌, List, [], Option, Some, None, length};
ghost use Rattle.urna_outside.specs.Confined.{count_puts, count_syncs};
ghost use Rattle.urna_outside.specs.Flash.{Op};
ghost use Rattle.gate_slot.specs.Page.{changed_pages, page_size, put_bytes};
ghost use Rattle.twin_image.specs.Held.{IsFirstGreatest, held_body};
ghost use Rattle.twin_image.specs.Order.{AreRenewals};
ghost use Rattle.twin_image.specs.Rewrite.{rewrite_bytes};

/// Law of what is held: of the bodies that stand, in their order, the first of those of greatest rank; and nothing
/// exactly where none stands.
pub fn held_is_the_first_of_greatest_rank()
    ensures body { (rank : List ℕ → Option ℕ) (bodies : List (List ℕ)) (best : List ℕ)
        → (held_body rank bodies ≡ Some best) ↔ IsFirstGreatest rank best bodies }
    ensures none { (rank : List ℕ → Option ℕ) (bodies : List (List ℕ))
        → (held_body rank bodies ≡ None) ↔ (bodies ≡ []) }
{}

/// Law of a commit's operations: to each of the four slots two gate bytes and each page that changes are put, or the
/// whole body where it isn't whole pages, and three times its flash is synced.
pub fn a_commit_puts_the_pages_that_change()
    ensures syncs { (size : ℕ) (old new : List ℕ) (ops : List Op) → AreRenewals size old new ops → count_syncs ops ≡ 12 }
    ensures puts { (size : ℕ) (old new : List ℕ) (ops : List Op) → AreRenewals size old new ops → size % page_size ≡ 0
        → count_puts ops ≡ 4 * (length (changed_pages old new) + 2) }
    ensures whole { (size : ℕ) (old new : List ℕ) (ops : List Op) → AreRenewals size old new ops → size % page_size ≢ 0
        → count_puts ops ≡ 12 }
    ensures bytes { (size : ℕ) (old new : List ℕ) (ops : List Op) → AreRenewals size old new ops → length new ≡ size
        → put_bytes ops ≡ 4 * (rewrite_bytes size old new + 2) }
{}
