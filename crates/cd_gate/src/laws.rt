//! Each kind of step keeps the rule, and what the rule says of passes; each as a call that does nothing.
ghost use Rattle.std.specs.Prelude.{◌≡◌, ◌≢◌, ◌⊎◌, ◌+◌, ◌^◌, ◌%◌, ◌<◌, ◌≤◌, ◌==◌, ◌++◌, ◌∷◌, [], ℕ, List, Option, Some, None, slice_index, IsTrue, true, false};
ghost use mathlib.Core.Option.{some};
ghost use mathlib.Core.List.{IsPrefix};
ghost use lib.ListN.{get_elem?};
ghost use Rattle.cd_legal.specs.declared.entry.Change.{Change};
ghost use Rattle.cd_legal.specs.declared.entry.Entry.{Entry};
ghost use Rattle.cd_legal.specs.declared.entry.Entry.TheVariants.{Begin, Finish, Publish, Halt};
ghost use Rattle.cd_legal.specs.declared.entry.Signed.{Signed};
ghost use Rattle.cd_legal.specs.declared.limits.TheConstants.{LAST_SERIAL, MAX_BEGINS, MAX_PASSES, MAX_UNRETIRED};
ghost use Rattle.cd_legal.specs.Entry.{signed, mine};
ghost use Rattle.cd_legal.specs.Laws.{core_at};
ghost use Rattle.cd_legal.specs.Legal.{allowed, after, state_at, may_retire};
ghost use Rattle.cd_legal.specs.Owing.{owes_nothing};
ghost use Rattle.cd_legal.specs.Signing.{may_sign, is_live_in};
ghost use Rattle.cd_legal.specs.State.{has_number, open_at, ticket_of, apps_stopped};
ghost use Rattle.cd_legal.specs.Whole.{nothing_left};
ghost use Rattle.cd_gate.specs.declared.table.TheConstants.{SERIAL_WORD, SERIAL_STEP, TURN_WORD, HISTORY_WORD, BALANCE_WORD, FULL_BALANCE, WORD_COUNT, BOARD_SLOT, SLOT_COUNT};
ghost use Rattle.cd_gate.specs.declared.view.View.{View};
ghost use Rattle.cd_gate.specs.declared.view.Gone.{Gone};
ghost use Rattle.cd_gate.specs.declared.view.Unsettled.{Unsettled};
ghost use Rattle.cd_gate.specs.Counts.{begins_in, place_of};
ghost use Rattle.cd_gate.specs.Duties.{is_due};
ghost use Rattle.cd_gate.specs.Rule.{IsKept, Fate, signs_all};
ghost use Rattle.cd_gate.specs.Steps.{first_view, longer, may_note, with_view, acquire, move_board, note, release, check, check_worn, begin, finish, reset, supersede, settle, split, join, copy, hand_over, compare};
ghost use Rattle.cd_gate.specs.Words.{Slot, Moment, owed, first_balances};

use cd_legal::Stands;

/// The table has a word for the serial, one for the turn, one that counts the history, and the balances; and a slot for the board.
pub fn the_table_has_these_words()
    ensures words { (SERIAL_WORD ≡ 0) × (TURN_WORD ≡ 1) × (HISTORY_WORD ≡ 2) × (BALANCE_WORD ≡ 3) × (WORD_COUNT ≡ 4 + MAX_UNRETIRED) }
    ensures numbers { (SERIAL_STEP ≡ 2 ^ 40) × (FULL_BALANCE ≡ 2 ^ 62) }
    ensures room { MAX_BEGINS + MAX_PASSES < SERIAL_STEP }
    ensures slots { (BOARD_SLOT ≡ 0) × (SLOT_COUNT ≡ 1) }
{}

/// A gate begins with the empty history, its board at home, the pass of number 0, and each balance full.
pub fn a_gate_begins_by_the_rule<T: Stands>()
    ensures { (b : T) → T.stands b b [] →
        IsKept T.stands b [] (record { packed = 0; turn = 0; counted = 0; balances = first_balances; board = Slot.Home b; views = first_view b ∷ [] }) }
{}

/// Acquire: where the turn is free, a pass that takes it has seen the whole history, which begins with what it had seen and has
/// its entries; the board that it finds stands for that history without Begin and Finish.
pub fn acquiring_keeps_the_rule<T: Stands>()
    ensures rule { (o : T) (log : List Signed) (m : Moment T) (seat : ℕ) (v : View T) (b : T) → IsKept T.stands o log m →
        get_elem? m.views seat ≡ some v → IsTrue v.live → m.turn ≡ 0 → m.board ≡ Slot.Home b →
        IsKept T.stands o log (acquire m seat v log b) }
    ensures board { (o : T) (log : List Signed) (m : Moment T) → IsKept T.stands o log m → m.turn ≡ 0 →
        (b : T) × (m.board ≡ Slot.Home b) × T.stands o b (core_at log) }
    ensures seen { (o : T) (log : List Signed) (m : Moment T) (seat : ℕ) (v : View T) → IsKept T.stands o log m →
        get_elem? m.views seat ≡ some v → IsTrue v.live → IsPrefix v.seen log × (mine v.number log ≡ v.mine) }
{}

/// Miss: a pass that finds the turn taken knows what it knew.
pub fn missing_keeps_the_rule<T: Stands>()
    ensures { (o : T) (log : List Signed) (m : Moment T) (seat : ℕ) (v : View T) → IsKept T.stands o log m →
        get_elem? m.views seat ≡ some v → IsKept T.stands o log (with_view m seat v) }
{}

/// Slot out, slot back: the pass that has the turn takes the board out of its slot, or puts one in.
pub fn moving_the_board_keeps_the_rule<T: Stands>()
    ensures { (o : T) (log : List Signed) (m : Moment T) (seat : ℕ) (v : View T) (x : Option T) → IsKept T.stands o log m →
        get_elem? m.views seat ≡ some v → IsTrue v.turn → IsKept T.stands o log (move_board m x) }
{}

/// Note: an entry that the pass with the turn may note is the next one of the history.
pub fn noting_keeps_the_rule<T: Stands>()
    ensures { (o : T) (log : List Signed) (m : Moment T) (seat : ℕ) (v : View T) (e : Entry) → IsKept T.stands o log m →
        get_elem? m.views seat ≡ some v → IsTrue v.turn → IsTrue (may_note v e) →
        IsKept T.stands o (log ++ signed v.number e ∷ []) (note m seat v log e) }
{}

/// Release: a pass gives the turn back with a board that stands for what it has seen without Begin and Finish, after which nothing
/// is left to be stopped or cleaned. Each superseded serial is settled then, and the coming one is not ready.
pub fn releasing_keeps_the_rule<T: Stands>()
    ensures { (o : T) (log : List Signed) (m : Moment T) (seat : ℕ) (v : View T) (b : T) → IsKept T.stands o log m →
        get_elem? m.views seat ≡ some v → IsTrue v.turn → v.unsettled ≡ None → v.ready ≡ false → m.board ≡ Slot.Held (Some b) →
        T.stands o b (core_at v.seen) → IsTrue (nothing_left (state_at v.seen)) → IsKept T.stands o log (release m seat v b) }
{}

/// Check: a pass that finds fewer requests than the limit has found room for one more. What it finds in the word of the serial is
/// how many began.
pub fn checking_keeps_the_rule<T: Stands>()
    ensures room { (o : T) (log : List Signed) (m : Moment T) (seat : ℕ) (v : View T) → IsKept T.stands o log m →
        get_elem? m.views seat ≡ some v → IsTrue v.live → begins_in log (state_at log).serial < MAX_BEGINS →
        IsKept T.stands o log (check m seat v log) }
    ensures worn { (o : T) (log : List Signed) (m : Moment T) (seat : ℕ) (v : View T) → IsKept T.stands o log m →
        get_elem? m.views seat ≡ some v → IsTrue v.live → IsKept T.stands o log (check_worn m seat v log) }
    ensures found { (o : T) (log : List Signed) (m : Moment T) → IsKept T.stands o log m →
        m.packed % SERIAL_STEP ≡ begins_in log (state_at log).serial }
{}

/// Begin: a pass that has found room, and has no request, begins one under the current serial.
pub fn beginning_keeps_the_rule<T: Stands>()
    ensures { (o : T) (log : List Signed) (m : Moment T) (seat : ℕ) (v : View T) → IsKept T.stands o log m →
        get_elem? m.views seat ≡ some v → IsTrue v.live → v.ticket ≡ None → IsTrue v.checked →
        IsKept T.stands o (log ++ signed v.number (Begin v.number (state_at log).serial) ∷ []) (begin m seat v log (state_at log).serial) }
{}

/// Finish: a pass that has a request, and has left no serial unsettled, ends it. It finds 1 in the balance exactly where the serial
/// is then due.
pub fn finishing_keeps_the_rule<T: Stands>()
    ensures rule { (o : T) (log : List Signed) (m : Moment T) (seat : ℕ) (v : View T) (n : ℕ) → IsKept T.stands o log m →
        get_elem? m.views seat ≡ some v → IsTrue v.live → v.ticket ≡ Some n → v.unsettled ≡ None →
        IsKept T.stands o (log ++ signed v.number (Finish v.number) ∷ []) (finish m seat v log n (place_of (state_at log) n)) }
    ensures due { (o : T) (log : List Signed) (m : Moment T) (seat : ℕ) (v : View T) (n : ℕ) (rule : IsKept T.stands o log m) →
        get_elem? m.views seat ≡ some v → IsTrue v.live → v.ticket ≡ Some n → v.unsettled ≡ None →
        is_due (after (state_at log) (Finish v.number)) rule.unsettled n ≡ (slice_index m.balances (place_of (state_at log) n) == 1) }
{}

/// Reset: the pass with the turn makes the balance of the coming serial ready, where nothing is unsettled and the serial that last
/// used this balance, if there is one, is retired.
pub fn resetting_keeps_the_rule<T: Stands>()
    ensures { (o : T) (log : List Signed) (m : Moment T) (seat : ℕ) (v : View T) (n : ℕ) → IsKept T.stands o log m →
        get_elem? m.views seat ≡ some v → IsTrue v.turn → n ≡ (state_at v.seen).serial → (state_at v.seen).halted ≡ false → v.unsettled ≡ None →
        ((k : ℕ) → k + MAX_UNRETIRED ≡ n + 1 → has_number k (state_at v.seen).retired ≡ true) → IsKept T.stands o log (reset m seat v n) }
{}

/// Publish: the pass with the turn supersedes the serial of its own request, where the coming one is ready.
pub fn publishing_keeps_the_rule<T: Stands>()
    ensures { (o : T) (log : List Signed) (m : Moment T) (seat : ℕ) (v : View T) (draft next n : ℕ) (change : Change) → IsKept T.stands o log m →
        get_elem? m.views seat ≡ some v → IsTrue v.turn → n ≡ (state_at v.seen).serial → n < LAST_SERIAL → v.unsettled ≡ None → v.ready ≡ true →
        v.ticket ≡ Some n → IsTrue (allowed (state_at v.seen) (Publish draft next n change)) → IsTrue (may_sign v.number (owed v) (Publish draft next n change)) →
        IsKept T.stands o (log ++ signed v.number (Publish draft next n change) ∷ []) (supersede m seat v log (Publish draft next n change) n (begins_in log n)) }
{}

/// Halt: the pass with the turn supersedes the current serial for good.
pub fn halting_keeps_the_rule<T: Stands>()
    ensures { (o : T) (log : List Signed) (m : Moment T) (seat : ℕ) (v : View T) (n : ℕ) → IsKept T.stands o log m →
        get_elem? m.views seat ≡ some v → IsTrue v.turn → n ≡ (state_at v.seen).serial → (state_at v.seen).halted ≡ false → v.unsettled ≡ None →
        IsKept T.stands o (log ++ signed v.number (Halt (n + 1)) ∷ []) (supersede m seat v log (Halt (n + 1)) n (begins_in log n)) }
{}

/// Settle: the pass with the turn settles the serial that it has superseded, whose apps are stopped. It finds the full balance with
/// the requests that run, less those that began; so these are left in it.
pub fn settling_keeps_the_rule<T: Stands>()
    ensures rule { (o : T) (log : List Signed) (m : Moment T) (seat : ℕ) (v : View T) (u : Unsettled) → IsKept T.stands o log m →
        get_elem? m.views seat ≡ some v → IsTrue v.turn → v.unsettled ≡ Some u → IsTrue (apps_stopped (state_at v.seen) u.serial) →
        IsKept T.stands o log (settle m seat v u.serial (open_at u.serial (state_at log).tickets)) }
    ensures found { (o : T) (log : List Signed) (m : Moment T) (seat : ℕ) (v : View T) (u : Unsettled) → IsKept T.stands o log m →
        get_elem? m.views seat ≡ some v → IsTrue v.turn → v.unsettled ≡ Some u →
        slice_index m.balances (1 + u.serial % MAX_UNRETIRED) + u.begins ≡ FULL_BALANCE + open_at u.serial (state_at log).tickets }
{}

/// Split: the pass of number 0 makes a pass more, of the number that is next.
pub fn splitting_keeps_the_rule<T: Stands>()
    ensures { (o : T) (log : List Signed) (m : Moment T) (seat : ℕ) (v : View T) → IsKept T.stands o log m →
        get_elem? m.views seat ≡ some v → IsTrue v.live → v.number ≡ 0 → v.made < MAX_PASSES → IsKept T.stands o log (split m seat v) }
{}

/// Join: the pass of number 0 takes in another, which has no turn, ticket, draft or duty, and then has seen what either had.
pub fn joining_keeps_the_rule<T: Stands>()
    ensures rule { (o : T) (log : List Signed) (m : Moment T) (seat : ℕ) (v : View T) (other : ℕ) (w : View T) → IsKept T.stands o log m →
        get_elem? m.views seat ≡ some v → get_elem? m.views other ≡ some w → other ≢ seat → IsTrue v.live → v.number ≡ 0 →
        IsTrue w.live → w.turn ≡ false → owed w ≡ owes_nothing → w.duties ≡ [] → IsKept T.stands o log (join m seat v other w) }
    ensures seen { (o : T) (log : List Signed) (m : Moment T) (seat : ℕ) (v : View T) (other : ℕ) (w : View T) → IsKept T.stands o log m →
        get_elem? m.views seat ≡ some v → get_elem? m.views other ≡ some w →
        IsPrefix v.seen (longer v.seen w.seen) × IsPrefix w.seen (longer v.seen w.seen) }
{}

/// Copy: a pass sends a messenger with what it has seen.
pub fn copying_keeps_the_rule<T: Stands>()
    ensures { (o : T) (log : List Signed) (m : Moment T) (seat : ℕ) (v : View T) → IsKept T.stands o log m →
        get_elem? m.views seat ≡ some v → IsKept T.stands o log (copy m seat v) }
{}

/// Hand over: a pass takes in a messenger.
pub fn handing_over_keeps_the_rule<T: Stands>()
    ensures { (o : T) (log : List Signed) (m : Moment T) (seat : ℕ) (v : View T) (other : ℕ) (w : View T) → IsKept T.stands o log m →
        get_elem? m.views seat ≡ some v → get_elem? m.views other ≡ some w → other ≢ seat → w.live ≡ false →
        IsKept T.stands o log (hand_over m seat v other w) }
{}

/// Compare: the lists that a pass was to compare begin what it has seen.
pub fn comparing_keeps_the_rule<T: Stands>()
    ensures rule { (o : T) (log : List Signed) (m : Moment T) (seat : ℕ) (v : View T) → IsKept T.stands o log m →
        get_elem? m.views seat ≡ some v → IsKept T.stands o log (compare m seat v) }
    ensures seen { (o : T) (log : List Signed) (m : Moment T) (seat : ℕ) (v : View T) (i : ℕ) (l : List Signed) → IsKept T.stands o log m →
        get_elem? m.views seat ≡ some v → get_elem? v.older i ≡ some l → IsPrefix l v.seen }
{}

/// By the rule one pass at a time has the turn.
pub fn one_pass_has_the_turn<T: Stands>()
    ensures { (o : T) (log : List Signed) (m : Moment T) (i j : ℕ) (v w : View T) → IsKept T.stands o log m →
        get_elem? m.views i ≡ some v → get_elem? m.views j ≡ some w → IsTrue v.turn → IsTrue w.turn → i ≡ j }
{}

/// By the rule whoever has signed an entry is a live view's number, or that of a joined pass.
pub fn passes_sign_the_history<T: Stands>()
    ensures { (o : T) (log : List Signed) (m : Moment T) (k : ℕ) (rule : IsKept T.stands o log m) → mine k log ≢ [] →
        ((seat : ℕ) × (v : View T) × (get_elem? m.views seat ≡ some v) × (v.live ≡ true) × (v.number ≡ k))
        ⊎ ((i : ℕ) × (gone : Gone) × (get_elem? rule.numbers.root.joined i ≡ some gone) × (gone.number ≡ k)) }
{}

/// By the rule the live drafts of the history are just those of the live views, each of one, whose
/// number has signed all its entries.
pub fn live_drafts_are_in_views<T: Stands>()
    ensures live { (o : T) (log : List Signed) (m : Moment T) (seat : ℕ) (v : View T) (draft : ℕ) → IsKept T.stands o log m →
        get_elem? m.views seat ≡ some v → IsTrue v.live → v.draft ≡ Some draft → IsTrue (is_live_in (state_at log) draft) }
    ensures one { (o : T) (log : List Signed) (m : Moment T) (i j draft : ℕ) (v w : View T) → IsKept T.stands o log m →
        get_elem? m.views i ≡ some v → get_elem? m.views j ≡ some w → IsTrue v.live → IsTrue w.live → v.draft ≡ Some draft → w.draft ≡ Some draft → i ≡ j }
    ensures signed { (o : T) (log : List Signed) (m : Moment T) (seat : ℕ) (v : View T) (draft : ℕ) → IsKept T.stands o log m →
        get_elem? m.views seat ≡ some v → IsTrue v.live → v.draft ≡ Some draft → IsTrue (signs_all v.number draft log) }
    ensures there { (o : T) (log : List Signed) (m : Moment T) (draft : ℕ) → IsKept T.stands o log m → IsTrue (is_live_in (state_at log) draft) →
        (seat : ℕ) × (v : View T) × (get_elem? m.views seat ≡ some v) × (v.live ≡ true) × (v.draft ≡ Some draft) }
{}

/// By the rule a live view has a ticket at a serial exactly where its number has an open one there, and a joined
/// pass has none.
pub fn tickets_are_in_views<T: Stands>()
    ensures live { (o : T) (log : List Signed) (m : Moment T) (seat : ℕ) (v : View T) → IsKept T.stands o log m →
        get_elem? m.views seat ≡ some v → IsTrue v.live → ticket_of v.number (state_at log).tickets ≡ v.ticket }
    ensures joined { (o : T) (log : List Signed) (m : Moment T) (i : ℕ) (gone : Gone) (rule : IsKept T.stands o log m) →
        get_elem? rule.numbers.root.joined i ≡ some gone → ticket_of gone.number (state_at log).tickets ≡ None }
{}

/// By the rule a view that says that the coming serial is ready has the turn, while the host runs and nothing is unsettled. The balance
/// of that serial is then full, and the serial that last used it, if there is one, is retired.
pub fn a_ready_serial_stands_alone<T: Stands>()
    ensures alone { (o : T) (log : List Signed) (m : Moment T) (seat : ℕ) (v : View T) (rule : IsKept T.stands o log m) →
        get_elem? m.views seat ≡ some v → IsTrue v.ready → (v.turn ≡ true) × (rule.unsettled ≡ None) × ((state_at log).halted ≡ false) }
    ensures full { (o : T) (log : List Signed) (m : Moment T) (seat : ℕ) (v : View T) → IsKept T.stands o log m →
        get_elem? m.views seat ≡ some v → IsTrue v.ready → slice_index m.balances (1 + ((state_at log).serial + 1) % MAX_UNRETIRED) ≡ FULL_BALANCE }
    ensures reused { (o : T) (log : List Signed) (m : Moment T) (seat n : ℕ) (v : View T) → IsKept T.stands o log m →
        get_elem? m.views seat ≡ some v → IsTrue v.ready → n + MAX_UNRETIRED ≡ (state_at log).serial + 1 → IsTrue (has_number n (state_at log).retired) }
{}

/// By the rule each superseded serial is unsettled, or settled with requests that run under it, or the duty of one pass alone, which
/// may retire it, or retired. The balance of a retired one is empty, until it is made ready for another serial.
pub fn superseded_serials_have_their_fate<T: Stands>()
    ensures fate { (o : T) (log : List Signed) (m : Moment T) (n : ℕ) (rule : IsKept T.stands o log m) → n < (state_at log).serial →
        Fate (state_at log) rule.unsettled m.views n }
    ensures duty { (o : T) (log : List Signed) (m : Moment T) (seat : ℕ) (v : View T) (n : ℕ) → IsKept T.stands o log m →
        get_elem? m.views seat ≡ some v → IsTrue v.live → IsTrue (has_number n v.duties) → IsTrue (may_retire (state_at log) n) }
    ensures empty { (o : T) (log : List Signed) (m : Moment T) (n : ℕ) (rule : IsKept T.stands o log m) → IsTrue (has_number n (state_at log).retired) →
        rule.edge < n + MAX_UNRETIRED → slice_index m.balances (place_of (state_at log) n) ≡ 0 }
    ensures one { (o : T) (log : List Signed) (m : Moment T) (i j n : ℕ) (v w : View T) → IsKept T.stands o log m →
        get_elem? m.views i ≡ some v → get_elem? m.views j ≡ some w → IsTrue v.live → IsTrue w.live →
        IsTrue (has_number n v.duties) → IsTrue (has_number n w.duties) → i ≡ j }
{}
