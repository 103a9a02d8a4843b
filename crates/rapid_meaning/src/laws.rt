ghost use Rattle.std.specs.Prelude.{◌≡◌, ◌≢◌, ◌⊎◌, ℕ, suc, ◌+◌, ◌*◌, ◌<◌, ◌≤◌, Bool, true, false, ℤ, pos, ◌+ℤ◌, int_lt, List, [], ◌∷◌, ◌++◌, length, IsTrue, IsFalse, Option, Some, None, slice_get};
ghost use Rattle.rapid_limits.specs.declared.TheConstants.{MOST_FRAMES, MOST_FRAME_VALUES};
ghost use Rattle.rapid_num.specs.Absent.{absent, is_absent};
ghost use Rattle.rapid_num.specs.NumText.{fixed_text};
ghost use Rattle.rapid_num.specs.Range.{is_num};
ghost use Rattle.rapid_num.specs.Reach.{is_position, is_reachable};
ghost use Rattle.rapid_num.specs.declared.joints.Joints.{Joints};
ghost use Rattle.joint_planner.specs.Setpoints.{setpoint, setpoint_count};
ghost use Rattle.rapid_model.specs.Fits.{Fitting, fits_request};
ghost use Rattle.rapid_model.specs.declared.answer.Answer.{Answer};
ghost use Rattle.rapid_model.specs.declared.answer.Answer.TheVariants.{At, Given, Go, Ok, Stopped};
ghost use Rattle.rapid_model.specs.declared.fate.Fate.TheVariants as fates;
ghost use Rattle.rapid_model.specs.declared.fate.Fault.TheVariants.{IndexRange, JointRange, NumRange, Speed, ZoneStop};
ghost use Rattle.rapid_model.specs.declared.request.Request.{Request};
ghost use Rattle.rapid_model.specs.declared.request.Request.TheVariants.{End, Hold, Look, Rise, Setpoint};
ghost use Rattle.rapid_model.specs.declared.value.Value.{Value};
ghost use Rattle.rapid_model.specs.declared.zone_name.ZoneName.{ZoneName};
ghost use Rattle.constant_meaning.specs.Constants.{Elements, constant_value};
ghost use Rattle.constant_meaning.specs.declared.outcome.Outcome.TheVariants as constant;
ghost use Rattle.typed_trees.specs.Plain.{NoStmts, TypedExpr, TypedRoutine, TypedStmt, TypedStmts, TypedTree};
ghost use Rattle.typed_trees.specs.Plain as trees;
ghost use Rattle.rapid_meaning.specs.Answering.{Asking, Ended, Gave, Misfits, NoFuel, Raised, Run, Unfit, fitting_of, performed};
ghost use Rattle.rapid_meaning.specs.Asking.{tree_asks};
ghost use Rattle.rapid_meaning.specs.Constants.{HoldsArrays};
ghost use Rattle.rapid_meaning.specs.Data.{Data, seen_in, values_in};
ghost use Rattle.rapid_meaning.specs.Errors.{failed_in, header};
ghost use Rattle.rapid_meaning.specs.Expressions.{expr};
ghost use Rattle.rapid_meaning.specs.Flows.{Guarded, Normal, Unguarded, Where, Turn};
ghost use Rattle.rapid_meaning.specs.Frames.{initial};
ghost use Rattle.rapid_meaning.specs.Functions.{num_text};
ghost use Rattle.rapid_meaning.specs.Legs.{let_on, looked_along};
ghost use Rattle.rapid_meaning.specs.Looks.{place_of};
ghost use Rattle.rapid_meaning.specs.Loops.{turn_due};
ghost use Rattle.rapid_meaning.specs.Moves.{aim, cap_of};
ghost use Rattle.rapid_meaning.specs.Runs.{FitsSteps, asks, asked_after, data_after, deep, state_after, task};
ghost use Rattle.rapid_meaning.specs.Statements.{byte_of, points};
ghost use Rattle.rapid_meaning.specs.Turns.{Counts, EndsNormally, turn_by_turn, turns};
ghost use Rattle.rapid_meaning.specs.Zones.{home_high, home_low, on_axes};

/// A law: parts of a program never nest deeper than the number of answers, so the fuel of a run never runs out, and
/// more fuel changes nothing.
pub fn fuel_is_enough()
    ensures enough { (tree : TypedTree) (answers : List Answer) → state_after tree answers ≢ NoFuel }
    ensures more { (tree : TypedTree) (answers : List Answer) (n : ℕ) → length answers < n → performed (fitting_of tree) (deep tree n) (task tree) (initial tree) answers ≡ state_after tree answers }
{}

/// A law: an answer that fits the pending request continues the run, and any other answer is unfit. Once a task has
/// ended, or an answer was unfit, further answers change nothing.
pub fn runs_go_on()
    ensures goes_on { (tree : TypedTree) (before : List Answer) (a : Answer) (request : Request) (d : Data) → state_after tree before ≡ Asking request d → IsTrue (fits_request (fitting_of tree d.trapped) request a) → state_after tree (before ++ a ∷ []) ≢ Unfit }
    ensures refuses { (tree : TypedTree) (before : List Answer) (a : Answer) (request : Request) (d : Data) → state_after tree before ≡ Asking request d → IsFalse (fits_request (fitting_of tree d.trapped) request a) → state_after tree (before ++ a ∷ []) ≡ Unfit }
    ensures stays_fit { (tree : TypedTree) (answers : List Answer) → FitsSteps tree answers → state_after tree answers ≢ Unfit }
    ensures stays_ended { (tree : TypedTree) (before : List Answer) (a : Answer) (d : Data) → state_after tree before ≡ Ended d → state_after tree (before ++ a ∷ []) ≡ Ended d }
    ensures stays_unfit { (tree : TypedTree) (before : List Answer) (a : Answer) → state_after tree before ≡ Unfit → state_after tree (before ++ a ∷ []) ≡ Unfit }
{}

/// A law: if the data hold the constant arrays, an expression that is known before the run gives its constant value,
/// asks nothing and changes no data.
pub fn constants_come_to_their_values()
    ensures { (tree : TypedTree) (routine : TypedRoutine) (known : Elements) (d : Data) → HoldsArrays tree routine known d → (e : TypedExpr) (v : Value) → constant_value known e ≡ constant.Value v → (by : Bool → Fitting) (run : Run) (left : List Answer) → performed by run (expr tree routine e) d left ≡ Gave v d left }
{}

/// A law: if the data hold the constant arrays, and evaluating an expression before the run gives an error or a fault,
/// then the run raises that error, or ends with that fault, with the data unchanged, unless it misfits.
pub fn constants_fail_as_their_values()
    ensures raises { (tree : TypedTree) (routine : TypedRoutine) (known : Elements) (d : Data) → HoldsArrays tree routine known d → (e : TypedExpr) (n : ℕ) → constant_value known e ≡ constant.Raises n → (by : Bool → Fitting) (run : Run) (left : List Answer) → performed by run (expr tree routine e) d left ≢ Misfits → performed by run (expr tree routine e) d left ≡ Raised n d left }
    ensures range { (tree : TypedTree) (routine : TypedRoutine) (known : Elements) (d : Data) → HoldsArrays tree routine known d → (e : TypedExpr) → constant_value known e ≡ constant.OutOfRange → (by : Bool → Fitting) (run : Run) → performed by run (expr tree routine e) d [] ≢ Misfits → performed by run (expr tree routine e) d [] ≡ Asking (End (fates.Fault NumRange)) d }
    ensures array { (tree : TypedTree) (routine : TypedRoutine) (known : Elements) (d : Data) → HoldsArrays tree routine known d → (e : TypedExpr) → constant_value known e ≡ constant.OutOfArray → (by : Bool → Fitting) (run : Run) → performed by run (expr tree routine e) d [] ≢ Misfits → performed by run (expr tree routine e) d [] ≡ Asking (End (fates.Fault IndexRange)) d }
{}

/// A law: a move asks for each setpoint that is planned from the arm's position, in order. Between two setpoints it
/// looks, and changes no data except the place and the count of that Look.
pub fn moves_are_planned()
    ensures asks { (tree : TypedTree) (n : ℕ) (w : Where) (s : TypedStmt) (axes : ℕ) (start target : Joints) (speed : ℤ) (seens : List ℕ) (d : Data) → IsTrue (is_position tree.axes start) → IsTrue (is_reachable axes target) → IsTrue (int_lt (pos 0) speed) → length seens < setpoint_count axes start target (cap_of speed) → length seens ≤ n → performed (fitting_of tree) (deep tree n) (header w s (aim axes target speed) (points w s)) d (At start ∷ let_on seens) ≡ Asking (Setpoint (setpoint axes start target (setpoint_count axes start target (cap_of speed)) (length seens + 1))) (looked_along w (byte_of s) seens d) }
    ensures looks { (tree : TypedTree) (n : ℕ) (w : Where) (s : TypedStmt) (axes : ℕ) (start target : Joints) (speed : ℤ) (seens : List ℕ) (d : Data) → IsTrue (is_position tree.axes start) → IsTrue (is_reachable axes target) → IsTrue (int_lt (pos 0) speed) → length seens + 1 < setpoint_count axes start target (cap_of speed) → length seens < n → performed (fitting_of tree) (deep tree n) (header w s (aim axes target speed) (points w s)) d (At start ∷ let_on seens ++ Given ∷ []) ≡ Asking Look (record (looked_along w (byte_of s) seens d) { place = place_of w (byte_of s) }) }
{}

/// A law: once all its setpoints are given, a move is done: it asks nothing more, no Look either, and has changed no
/// data except the place and the count of its Looks. A stopped setpoint ends the task. A target out of reach ends it
/// before any request, whatever the speed. So does a speed that is not positive, for any target within reach.
pub fn moves_end()
    ensures done { (tree : TypedTree) (n : ℕ) (w : Where) (s : TypedStmt) (axes : ℕ) (start target : Joints) (speed : ℤ) (seens : List ℕ) (d : Data) (left : List Answer) → IsTrue (is_position tree.axes start) → IsTrue (is_reachable axes target) → IsTrue (int_lt (pos 0) speed) → length seens + 1 ≡ setpoint_count axes start target (cap_of speed) → length seens ≤ n → performed (fitting_of tree) (deep tree n) (header w s (aim axes target speed) (points w s)) d (At start ∷ let_on seens ++ Given ∷ left) ≡ Gave Normal (looked_along w (byte_of s) seens d) left }
    ensures stopped { (tree : TypedTree) (n : ℕ) (w : Where) (s : TypedStmt) (axes : ℕ) (start target : Joints) (speed : ℤ) (seens : List ℕ) (zone : ZoneName) (d : Data) → IsTrue (is_position tree.axes start) → IsTrue (is_reachable axes target) → IsTrue (int_lt (pos 0) speed) → length seens < setpoint_count axes start target (cap_of speed) → length seens ≤ n → performed (fitting_of tree) (deep tree n) (header w s (aim axes target speed) (points w s)) d (At start ∷ let_on seens ++ Stopped zone ∷ []) ≡ Asking (End (fates.Fault ZoneStop)) (looked_along w (byte_of s) seens d) }
    ensures out_of_reach { (by : Bool → Fitting) (run : Run) (axes : ℕ) (target : Joints) (speed : ℤ) (d : Data) → is_reachable axes target ≡ false → performed by run (aim axes target speed) d [] ≡ Asking (End (fates.Fault JointRange)) d }
    ensures no_speed { (by : Bool → Fitting) (run : Run) (axes : ℕ) (target : Joints) (speed : ℤ) (d : Data) → IsTrue (is_reachable axes target) → int_lt (pos 0) speed ≡ false → performed by run (aim axes target speed) d [] ≡ Asking (End (fates.Fault Speed)) d }
{}

/// A law: the most that an axis moves in one setpoint, in thousandths of a degree, is the whole part of the speed, and
/// at least 1.
pub fn caps_are_whole_parts()
    ensures { (speed : ℕ) → ((cap_of (pos speed) ≡ 1) × (speed < 1_000)) ⊎ ((cap_of (pos speed) * 1_000 ≤ speed) × (speed < (cap_of (pos speed) + 1) * 1_000)) }
{}

/// A law: an empty ERROR part does what no ERROR part does, except that it sets ERRNO to the error's number.
pub fn empty_error_parts_pass_errors_on()
    ensures { (tree : TypedTree) (n : ℕ) (w : Where) (s : TypedStmt) (error : ℕ) (d : Data) (left : List Answer) → performed (fitting_of tree) (deep tree (suc n)) (failed_in (Guarded NoStmts) w s error) d left ≡ performed (fitting_of tree) (deep tree (suc n)) (failed_in Unguarded w s error) (record d { errno = error }) left }
{}

/// A law: if its list always ends normally, a FOR iterates as often as the closed form of its bounds says, with one
/// Look an iteration, and is then done. If the closed form says for ever, any number of iterations is followed by the
/// Look of one more.
pub fn loops_turn_by_their_closed_form()
    ensures done { (tree : TypedTree) (w : Where) (at local : ℕ) (e f : TypedExpr) (g : Option TypedExpr) (list : TypedStmts) (answers : List Answer) (parts seen : ℕ) (first last step : ℤ) (count n : ℕ) (d : Data) (left : List Answer) → EndsNormally tree w local list answers parts → Counts w.routine local d first last step → IsTrue (is_num first) → IsTrue (is_num last) → turns first last step ≡ Some count → parts + count < n → (after : Data) × (performed (fitting_of tree) (deep tree n) (turn_due w.routine local (Turn w (trees.For at local e f g list))) d (turn_by_turn seen answers count ++ left) ≡ Gave Normal after left) }
    ensures for_ever { (tree : TypedTree) (w : Where) (at local : ℕ) (e f : TypedExpr) (g : Option TypedExpr) (list : TypedStmts) (answers : List Answer) (parts seen : ℕ) (first last step : ℤ) (count n : ℕ) (d : Data) → EndsNormally tree w local list answers parts → Counts w.routine local d first last step → IsTrue (is_num first) → IsTrue (is_num last) → turns first last step ≡ None → parts + count < n → (after : Data) × (performed (fitting_of tree) (deep tree n) (turn_due w.routine local (Turn w (trees.For at local e f g list))) d (turn_by_turn seen answers count) ≡ Asking Look after) }
{}

/// A law: if neither bound of a home zone's axis is 9E9, the middle is halfway between the bounds, and the delta is its
/// distance from each. An axis whose middle or delta is 9E9 has no bounds. The bounds of a zone are those of each axis.
pub fn homes_are_halfway()
    ensures halfway { (middle delta low high : ℤ) → home_low middle delta ≡ Some low → home_high middle delta ≡ Some high → is_absent low ≡ false → is_absent high ≡ false → (low +ℤ high ≡ middle +ℤ middle) × (low +ℤ delta ≡ middle) }
    ensures none { (middle delta : ℤ) → IsTrue (is_absent middle) ⊎ IsTrue (is_absent delta) → (home_low middle delta ≡ Some absent) × (home_high middle delta ≡ Some absent) }
    ensures axes { (bound : ℤ → ℤ → Option ℤ) (middles deltas bounds : List ℤ) (axis : ℕ) (middle delta : ℤ) → on_axes bound middles deltas ≡ Some bounds → slice_get middles axis ≡ Some middle → slice_get deltas axis ≡ Some delta → slice_get bounds axis ≡ bound middle delta }
{}

/// A law: NumToStr writes a num with three decimals as the printed lines of a run do.
pub fn three_decimals_are_fixed()
    ensures { (n : ℤ) → num_text n 3 ≡ fixed_text n }
{}

/// A law: whatever the answers, a task has at most 32 frames, with at most 20,000 values in all.
pub fn frames_have_room()
    ensures { (tree : TypedTree) (answers : List Answer) (d : Data) → data_after tree answers ≡ Some d → (length d.frames ≤ MOST_FRAMES) × (values_in d.frames ≤ MOST_FRAME_VALUES) }
{}

/// A law: a wait that is not ready holds with the count that the innermost frame keeps from a Look of its own
/// statements. If no Look with as many frames came after a Look that may go on, it is the count of that Look. After
/// Rise, the task looks again.
pub fn waits_look_again()
    ensures holds { (tree : TypedTree) (answers : List Answer) (seen : ℕ) (d : Data) → state_after tree answers ≡ Asking (Hold seen) d → seen ≡ seen_in d.frames }
    ensures own { (tree : TypedTree) (before more : List Answer) (seen count below : ℕ) (d e : Data) → state_after tree before ≡ Asking Look d → length d.frames ≡ suc below → state_after tree (before ++ Go seen ∷ more) ≡ Asking (Hold count) e → length e.frames ≡ suc below → ((some rest : List Answer) (f : Data) → more ≡ some ++ rest → state_after tree (before ++ Go seen ∷ some) ≡ Asking Look f → length f.frames ≢ suc below) → count ≡ seen }
    ensures looks { (tree : TypedTree) (answers : List Answer) → asked_after tree answers ≡ asks Rise → asked_after tree (answers ++ Ok ∷ []) ≡ asks Look }
{}

/// A law: after given answers a task asks at most one request, and only the tasks ask.
pub fn tasks_ask_one_request()
    ensures one { (trees : List TypedTree) (actor : ℕ) (answers : List Answer) (r r' : Request) → tree_asks trees actor answers r → tree_asks trees actor answers r' → r ≡ r' }
    ensures within { (trees : List TypedTree) (actor : ℕ) (answers : List Answer) (request : Request) → tree_asks trees actor answers request → actor < length trees }
{}
