//! A code is read in one way. Each law is a function without a body.
ghost use Rattle.std.specs.Prelude.{◌≡◌, ◌<◌, ◌^◌, ℕ, List, length, Ok};
ghost use Rattle.code_forms.specs.list_views.ByteLists.{IsBytes};
ghost use Rattle.code_forms.specs.declared.insn.Insn.{Insn};
ghost use Rattle.code_decode.specs.Codes.{decode_of, IsReading};

/// For codes of at most 65,535 bytes the reading from left to right answers a list exactly where these are the code's
/// instructions.
pub fn read_is_spelled()
    ensures found { (code : List ℕ) (insns : List (ℕ × Insn)) → IsBytes code → length code < 2 ^ 16 → decode_of code ≡ Ok insns
        → IsReading code insns }
    ensures only { (code : List ℕ) (insns : List (ℕ × Insn)) → IsReading code insns → decode_of code ≡ Ok insns }
{}

/// A code has one list of instructions.
pub fn one_reading()
    ensures { (code : List ℕ) (insns others : List (ℕ × Insn)) → IsReading code insns → IsReading code others → insns ≡ others }
{}
