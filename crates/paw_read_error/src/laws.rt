// What an answer says of what is read.

ghost use Rattle.std.specs.Prelude.{ℕ, ◌≡◌, Result, Ok, Err};
ghost use Rattle.paw_read_error.specs.inner.Gives.{Gives};
ghost use Rattle.paw_read_error.specs.declared.read_error.ReadError.TheVariants as unread;

/// An answer shows what is read: whatever gives the same value is the same, so is whatever gives the same fault, and
/// nothing gives both a value and a fault.
pub fn answers_give_the_reading()
    ensures value { (f : ℕ → ℕ) (x : ℕ) (r s : Result ℕ ℕ) → Gives f (Ok x) r → Gives f (Ok x) s → r ≡ s }
    ensures fault { (f : ℕ → ℕ) (n : ℕ) (r s : Result ℕ ℕ)
        → Gives f (Err (unread.Fault n)) r → Gives f (Err (unread.Fault n)) s → r ≡ s }
    ensures apart { (f : ℕ → ℕ) (x n : ℕ) (r : Result ℕ ℕ) → Gives f (Ok x) r → ¬ Gives f (Err (unread.Fault n)) r }
{}

/// Memory may be lacking whatever is read.
pub fn memory_may_be_lacking()
    ensures always { (f : ℕ → ℕ) (r : Result ℕ ℕ) → Gives f (Err unread.Memory) r }
{}
