//! What follows from the definition of a pool's text. Each law is a function without a body.

ghost use Rattle.std.specs.Prelude.{◌≡◌, ◌+◌, ◌<◌, ◌++◌, ℕ, List, length, slice_index, Ok};
ghost use Rattle.class_pool.specs.declared.entry.PoolEntry.{PoolEntry};
ghost use Rattle.class_pool.specs.Text.{HasTexts, IsPool, pool_bytes, Unread, Spells};
ghost use Rattle.class_pool.specs.Reading.{pool_at};

/// No bytes spell two pools.
pub fn one_pool()
    ensures { (from : Unread) (entries others : List PoolEntry) (rest end : Unread) → Spells from entries rest → Spells from others end
        → (entries ≡ others) × (rest ≡ end) }
{}

/// What [`crate::write_pool`] writes spells the pool, whatever stands behind it.
pub fn written_is_spelled()
    ensures { (at : ℕ) (entries : List PoolEntry) (rest : List ℕ) → IsPool entries
        → Spells (record { at = at; bytes = pool_bytes entries ++ rest }) entries (record { at = at + length (pool_bytes entries); bytes = rest }) }
{}

/// The first fault's computation finds no fault exactly where the bytes spell a pool, and then it gives that pool.
pub fn read_is_spelled()
    ensures found { (from : Unread) (entries : List PoolEntry) (rest : Unread) → ((i : ℕ) → slice_index from.bytes i < 256)
        → pool_at from ≡ Ok (entries, rest) → Spells from entries rest }
    ensures only { (from : Unread) (entries : List PoolEntry) (rest : Unread) → Spells from entries rest
        → pool_at from ≡ Ok (entries, rest) }
{}

/// The entries of a pool have a text.
pub fn pool_has_texts()
    ensures { (entries : List PoolEntry) → IsPool entries → HasTexts entries }
{}

/// Where the text of some entries spells a pool, the pool has these entries.
pub fn entries_of_text()
    ensures { (at : ℕ) (entries others : List PoolEntry) (rest : List ℕ) (end : Unread) → HasTexts entries
        → Spells (record { at = at; bytes = pool_bytes entries ++ rest }) others end → others ≡ entries }
{}
