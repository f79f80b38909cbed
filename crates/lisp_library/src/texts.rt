//! The texts that every module may include.

ghost use Rattle.std.specs.Prelude.{◌≡◌, Some, None, MatchOption};
ghost use Rattle.lisp_spec.specs.BuiltIns.{built_in};

// A constant for each condition, by the names and codes of the Chia documentation.
const CONDITION_CODES: &str = "(
  (defconstant REMARK 1)
  (defconstant AGG_SIG_PARENT 43)
  (defconstant AGG_SIG_PUZZLE 44)
  (defconstant AGG_SIG_AMOUNT 45)
  (defconstant AGG_SIG_PUZZLE_AMOUNT 46)
  (defconstant AGG_SIG_PARENT_AMOUNT 47)
  (defconstant AGG_SIG_PARENT_PUZZLE 48)
  (defconstant AGG_SIG_UNSAFE 49)
  (defconstant AGG_SIG_ME 50)
  (defconstant CREATE_COIN 51)
  (defconstant RESERVE_FEE 52)
  (defconstant CREATE_COIN_ANNOUNCEMENT 60)
  (defconstant ASSERT_COIN_ANNOUNCEMENT 61)
  (defconstant CREATE_PUZZLE_ANNOUNCEMENT 62)
  (defconstant ASSERT_PUZZLE_ANNOUNCEMENT 63)
  (defconstant ASSERT_CONCURRENT_SPEND 64)
  (defconstant ASSERT_CONCURRENT_PUZZLE 65)
  (defconstant SEND_MESSAGE 66)
  (defconstant RECEIVE_MESSAGE 67)
  (defconstant ASSERT_MY_COIN_ID 70)
  (defconstant ASSERT_MY_PARENT_ID 71)
  (defconstant ASSERT_MY_PUZZLEHASH 72)
  (defconstant ASSERT_MY_AMOUNT 73)
  (defconstant ASSERT_MY_BIRTH_SECONDS 74)
  (defconstant ASSERT_MY_BIRTH_HEIGHT 75)
  (defconstant ASSERT_EPHEMERAL 76)
  (defconstant ASSERT_SECONDS_RELATIVE 80)
  (defconstant ASSERT_SECONDS_ABSOLUTE 81)
  (defconstant ASSERT_HEIGHT_RELATIVE 82)
  (defconstant ASSERT_HEIGHT_ABSOLUTE 83)
  (defconstant ASSERT_BEFORE_SECONDS_RELATIVE 84)
  (defconstant ASSERT_BEFORE_SECONDS_ABSOLUTE 85)
  (defconstant ASSERT_BEFORE_HEIGHT_RELATIVE 86)
  (defconstant ASSERT_BEFORE_HEIGHT_ABSOLUTE 87)
)
";

// Functions for tree hashes, of trees and of curried programs.
const TREE_HASH: &str = "(
  (defun sha256tree (T)
    (if (l T) (sha256 2 (sha256tree (f T)) (sha256tree (r T))) (sha256 1 T)))
  (defun-inline quoted-hash (H) (sha256 2 (sha256 1 1) H))
  (defun-inline form-hash (OP X Y)
    (sha256 2 (sha256 1 OP) (sha256 2 X (sha256 2 Y (sha256 1 ())))))
  (defun-inline curried-hash2 (P A B)
    (form-hash 2 (quoted-hash P)
      (form-hash 4 (quoted-hash A)
        (form-hash 4 (quoted-hash B) (sha256 1 1)))))
)
";

/// The text that is built in under this name, None where there is none.
pub fn built_in(name: &str) -> Option<&'static str>
    ensures { MatchOption result (built_in name.now ≡ None) (λ text. built_in name.now ≡ Some text.now) }
{
    match name {
        "condition_codes.clib" => Some(CONDITION_CODES),
        "tree_hash.clib" => Some(TREE_HASH),
        _ => None,
    }
}
