//! What the rule of the words gives at any moment.
ghost use Rattle.std.specs.Prelude.{ℕ, List, ◌+◌, ◌≤◌, length, slice_index};
ghost use Rattle.overlay_claims.specs.Claims.{IsClaimed};
ghost use Rattle.overlay_claims.specs.declared.view.View.{View};

/// No word passes the length of its list by more than there are hands, one for each list: with at most
/// 64 of them by 64 at most.
pub fn no_word_passes_its_list_by_more_than_the_hands()
    ensures bounded { (lengths words : List ℕ) (views : List View) (list : ℕ) → IsClaimed lengths words views
        → slice_index words list ≤ slice_index lengths list + length lengths }
{}
