//! Laws of a pool's answers, each the contract of a function that does nothing. With the contract
//! of `pool_answers`, which speaks of the same definitions, they are laws of the pool.
ghost use Rattle.std.specs.Prelude.{◌≡◌, ◌+◌, ◌++◌, ℕ, List, Some, length, slice_get};
ghost use Rattle.nfqa_msgs.specs.declared.notice.Notice.{Notice};
ghost use Rattle.inspector_script.specs.Scripts.{ScriptValue, answer, count_after};
ghost use Rattle.inspector_pool.specs.Numbers.{least_workers, most_workers, most_notices};
ghost use Rattle.inspector_pool.specs.Answers.{answers, in_turn};

use crate::pool::{MAX_NOTICES, MAX_WORKERS, MIN_WORKERS};

/// There is an answer for each notice, and that to the k-th is the port's to its (counted + k)-th;
/// a sum above the largest count stands for it. Here k counts from 0, and so stands for one more.
pub fn each_notice_is_answered_by_its_number()
    ensures as_many { (s : ScriptValue) (place counted : ℕ) (ns : List Notice) →
        length (answers s place counted ns) ≡ length ns }
    ensures each { (s : ScriptValue) (place counted : ℕ) (ns : List Notice) (k : ℕ)
        (n : Notice) → slice_get ns k ≡ Some n →
        slice_get (answers s place counted ns) k
        ≡ Some (answer s place (count_after counted (k + 1)) n) }
{}

/// They are the answers of the port's inspector to one notice after the other.
pub fn a_pool_answers_as_one_inspector()
    ensures { (s : ScriptValue) (place counted : ℕ) (ns : List Notice) →
        answers s place counted ns ≡ in_turn s (record { place = place; received = counted }) ns }
{}

/// Notices that two pools answer, the second with the first's counted, have the answers that they
/// would have together.
pub fn pools_go_on_where_others_ended()
    ensures { (s : ScriptValue) (place counted : ℕ) (ns ms : List Notice) →
        answers s place counted (ns ++ ms)
        ≡ answers s place counted ns
        ++ answers s place (count_after counted (length ns)) ms }
{}

/// The public constants are the numbers of the definitions.
pub fn public_numbers()
    ensures least { MIN_WORKERS ≡ least_workers }
    ensures most { MAX_WORKERS ≡ most_workers }
    ensures notices { MAX_NOTICES ≡ most_notices }
{}
