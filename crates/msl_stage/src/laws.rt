//! Laws of the definitions. Each function is empty, and its contract is the law.

ghost use Rattle.std.specs.Prelude.{◌≡◌, ◌≢◌, ◌<◌, ◌≤◌, ℕ, false, List, [], ◌∷◌, ◌++◌, length, map, All, slice_index_or, slice_set, Option, Some, None, Ok, Err};
ghost use Rattle.std.specs.List.{AllByRecursion};
ghost use Rattle.msl_base.specs.declared.fault.Fault.{Fault};
ghost use Rattle.msl_base.specs.Streams.{Record, Outcome, Ending, done, failed, cut, Stream, stream, before, end_by, Pointwise, Unordered};
ghost use Rattle.msl_fun.specs.declared.funs.Fun.{Fun};
ghost use Rattle.msl_program.specs.Filters.{flushed, stepped};
ghost use Rattle.msl_stage.specs.declared.filter.FilterState.{FilterState};
ghost use Rattle.msl_stage.specs.declared.step.Step.{Step};
ghost use Rattle.msl_stage.specs.declared.step.Step.TheVariants.{Farm, Filter};
ghost use Rattle.msl_stage.specs.Dealing.{Numbered, Part, Tried, HasTriedAll, HasTriedSome, worker_of, dealt_to, results_of, IsDealt, IsCollected, goods_of, IsGood, Least, fault_of};
ghost use Rattle.msl_stage.specs.Feeding.{GoesOn};
ghost use Rattle.msl_stage.specs.Lines.{AnyOf, IsStep, LineRuns, StepRuns};
ghost use Rattle.msl_stage.specs.Working.{HasEnded, HasWorked};

use crate::OneToOne;

/// Work on each record by itself goes on with a record's result, and ends with a record's fault or as its input.
pub fn one_to_one_works<O: OneToOne>()
    ensures good { (w : O) (got sent : List Record) → GoesOn (Pointwise (O.one w)) (Pointwise (O.one w)) got sent
        → (x y : Record) → O.one w x (Ok y) → GoesOn (Pointwise (O.one w)) (Pointwise (O.one w)) (got ++ x ∷ []) (sent ++ y ∷ []) }
    ensures fault { (w : O) (got sent : List Record) → GoesOn (Pointwise (O.one w)) (Pointwise (O.one w)) got sent
        → (x : Record) (f : Fault) → O.one w x (Err f) → HasEnded (Pointwise (O.one w)) (stream (got ++ x ∷ []) cut) (stream sent (failed f)) }
    ensures ending { (w : O) (got sent : List Record) → GoesOn (Pointwise (O.one w)) (Pointwise (O.one w)) got sent
        → (e : Ending) → HasEnded (Pointwise (O.one w)) (stream got e) (stream sent e) }
{}

/// A filter that was `s` at first and is `f` goes on with its outputs of a record, from its next state, and ends with its
/// fault. At the end of a whole input it gives its last outputs, or faults.
pub fn filter_works<O: OneToOne>()
    ensures good { (funs : List Fun) (f s : FilterState) (got sent : List Record)
        → GoesOn (StepRuns O.one funs (Filter f)) (StepRuns O.one funs (Filter s)) got sent
        → (next : FilterState) (x : Record) (ys : List Record) → next.spec ≡ f.spec → next.stage ≡ f.stage
        → stepped funs f.spec.now f.stage f.state x ≡ Ok (ys, next.state)
        → GoesOn (StepRuns O.one funs (Filter next)) (StepRuns O.one funs (Filter s)) (got ++ x ∷ []) (sent ++ ys) }
    ensures fault { (funs : List Fun) (f s : FilterState) (got sent : List Record)
        → GoesOn (StepRuns O.one funs (Filter f)) (StepRuns O.one funs (Filter s)) got sent
        → (x : Record) (why : Fault) → stepped funs f.spec.now f.stage f.state x ≡ Err why
        → HasEnded (StepRuns O.one funs (Filter s)) (stream (got ++ x ∷ []) cut) (stream sent (failed why)) }
    ensures last { (funs : List Fun) (f s : FilterState) (got sent : List Record)
        → GoesOn (StepRuns O.one funs (Filter f)) (StepRuns O.one funs (Filter s)) got sent
        → (ys : List Record) → flushed funs f.spec.now f.stage f.state ≡ Ok ys
        → HasEnded (StepRuns O.one funs (Filter s)) (stream got done) (stream (sent ++ ys) done) }
    ensures last_fault { (funs : List Fun) (f s : FilterState) (got sent : List Record)
        → GoesOn (StepRuns O.one funs (Filter f)) (StepRuns O.one funs (Filter s)) got sent
        → (why : Fault) → flushed funs f.spec.now f.stage f.state ≡ Err why
        → HasEnded (StepRuns O.one funs (Filter s)) (stream got done) (stream sent (failed why)) }
{}

/// A step that was `s` at first and is `t` may be given up at any time, as for want of memory, whatever more comes. At the
/// end of an input that isn't whole it ends as this. What comes behind its end is dropped.
pub fn any_step_works<O: OneToOne>()
    ensures first { (funs : List Fun) (s : Step O) → HasWorked (StepRuns O.one funs s) (StepRuns O.one funs s) false (stream [] cut) (stream [] cut) }
    ensures given_up { (funs : List Fun) (t s : Step O) (got sent : List Record) → IsStep O.one funs t
        → GoesOn (StepRuns O.one funs t) (StepRuns O.one funs s) got sent
        → (more : Stream) → HasEnded (StepRuns O.one funs s) (before got more) (stream sent cut) }
    ensures passed { (funs : List Fun) (t s : Step O) (got sent : List Record) → IsStep O.one funs t
        → GoesOn (StepRuns O.one funs t) (StepRuns O.one funs s) got sent
        → (e : Ending) → e ≢ done → HasEnded (StepRuns O.one funs s) (stream got e) (stream sent e) }
    ensures dropped { (funs : List Fun) (s : Step O) (got : List Record) (sent more : Stream)
        → HasEnded (StepRuns O.one funs s) (stream got cut) sent → HasEnded (StepRuns O.one funs s) (before got more) sent }
{}

/// A step and the steps behind it, which got what it sent, have worked as one line. Where those have ended, it needn't have.
pub fn steps_work_as_a_line<O: OneToOne>()
    ensures going { (funs : List Fun) (t s : Step O) (ts ss : List (Step O)) (got made sent : List Record)
        → GoesOn (StepRuns O.one funs t) (StepRuns O.one funs s) got made → GoesOn (LineRuns O.one funs ts) (LineRuns O.one funs ss) made sent
        → GoesOn (LineRuns O.one funs (t ∷ ts)) (LineRuns O.one funs (s ∷ ss)) got sent }
    ensures ended_before { (funs : List Fun) (t s : Step O) (ss : List (Step O)) (got made : List Record) (sent more : Stream) → IsStep O.one funs t
        → GoesOn (StepRuns O.one funs t) (StepRuns O.one funs s) got made → HasEnded (LineRuns O.one funs ss) (stream made cut) sent
        → HasEnded (LineRuns O.one funs (s ∷ ss)) (before got more) sent }
    ensures ended { (funs : List Fun) (s : Step O) (ss : List (Step O)) (got made sent : Stream)
        → HasEnded (StepRuns O.one funs s) got made → HasEnded (LineRuns O.one funs ss) made sent
        → HasEnded (LineRuns O.one funs (s ∷ ss)) got sent }
    ensures none { (funs : List Fun) (got : Stream) → HasEnded (LineRuns O.one funs []) got got }
{}

/// One record more that is dealt to one part, with the number behind the last, is one record more that is dealt.
pub fn one_more_is_dealt<A>()
    ensures none { (dealt : A → List (Numbered Record)) (parts : List A) → AllByRecursion (λ p. dealt p ≡ []) parts → IsDealt dealt parts [] }
    ensures more { (dealt : A → List (Numbered Record)) (parts : List A) (X : List Record) (x : Record) (k : ℕ) (d p : A) → k < length parts
        → dealt p ≡ dealt (slice_index_or parts k d) ++ (length X, x) ∷ [] → IsDealt dealt parts X → IsDealt dealt (slice_set parts k p) (X ++ x ∷ []) }
{}

/// A part goes on with the result of one record more, be it a fault. It may leave all that comes then.
pub fn one_more_is_tried<O: OneToOne>()
    ensures none { (w : O) → Tried (O.one w) [] [] [] }
    ensures tried { (w : O) (dealt : List (Numbered Record)) (results : List (Numbered Outcome)) (i : ℕ) (x : Record) (r : Outcome) → O.one w x r
        → Tried (O.one w) dealt results [] → Tried (O.one w) (dealt ++ (i, x) ∷ []) (results ++ (i, r) ∷ []) [] }
    ensures left { (w : O) (dealt more left : List (Numbered Record)) (results : List (Numbered Outcome))
        → Tried (O.one w) dealt results left → Tried (O.one w) (dealt ++ more) results (left ++ more) }
{}

/// One result more of one part is one result more of all.
pub fn one_more_is_collected<A>()
    ensures none { (results : A → List (Numbered Outcome)) (parts : List A) → AllByRecursion (λ p. results p ≡ []) parts → IsCollected results parts [] }
    ensures more { (results : A → List (Numbered Outcome)) (parts : List A) (came : List (Numbered Outcome)) (r : Numbered Outcome) (k : ℕ) (d p : A)
        → k < length parts → results p ≡ results (slice_index_or parts k d) ++ r ∷ [] → IsCollected results parts came
        → IsCollected results (slice_set parts k p) (came ++ r ∷ []) }
    ensures goods { (came more : List (Numbered Outcome)) → goods_of (came ++ more) ≡ goods_of came ++ goods_of more }
{}

/// Whatever stands for the parts, what was dealt to each of them and collected of each counts alone.
pub fn parts_stand_for_others<A, B>()
    ensures dealt { (dealt : A → List (Numbered Record)) (also : B → List (Numbered Record)) (parts : List A) (others : List B) (X : List Record)
        → map dealt parts ≡ map also others → IsDealt dealt parts X → IsDealt also others X }
    ensures collected { (results : A → List (Numbered Outcome)) (also : B → List (Numbered Outcome)) (parts : List A) (others : List B) (came : List (Numbered Outcome))
        → map results parts ≡ map also others → IsCollected results parts came → IsCollected also others came }
{}

/// How the fault of the least number is kept while results come.
pub fn least_fault()
    ensures none { Least None [] }
    ensures good { (came : List (Numbered Outcome)) (o : Option (Numbered Fault)) (i : ℕ) (y : Record) → Least o came → Least o (came ++ (i, Ok y) ∷ []) }
    ensures first { (came : List (Numbered Outcome)) (i : ℕ) (f : Fault) → Least None came → Least (Some (i, f)) (came ++ (i, Err f) ∷ []) }
    ensures lower { (came : List (Numbered Outcome)) (n i : ℕ) (g f : Fault) → i ≤ n → Least (Some (n, g)) came → Least (Some (i, f)) (came ++ (i, Err f) ∷ []) }
    ensures higher { (came : List (Numbered Outcome)) (n i : ℕ) (g f : Fault) → n ≤ i → Least (Some (n, g)) came → Least (Some (n, g)) (came ++ (i, Err f) ∷ []) }
{}

/// What the parts of a farm made together of the records that were dealt is the farm's relation: the results in the order
/// in which they came, and the fault of the least number. Where no part faulted the farm ends as its input.
pub fn farm_together<O: OneToOne>()
    ensures together { (X : List Record) (parts : List (Part O)) (came : List (Numbered Outcome)) (o : Option (Numbered Fault)) (e : Ending)
        → AllByRecursion (HasTriedAll O.one) parts → IsDealt dealt_to parts X → IsCollected results_of parts came → Least o came
        → Unordered (AnyOf O.one (map worker_of parts)) (stream X e) (stream (goods_of came) (end_by (fault_of o) e)) }
    ensures good { (X : List Record) (parts : List (Part O)) (came : List (Numbered Outcome)) (e : Ending)
        → AllByRecursion (HasTriedAll O.one) parts → IsDealt dealt_to parts X → IsCollected results_of parts came → All IsGood came
        → Unordered (AnyOf O.one (map worker_of parts)) (stream X e) (stream (goods_of came) e) }
{}

/// A farm of which the parts have tried all that was dealt to them has ended, with the fault of the least number or as its
/// input, be this cut. Where a part may have some left, as for want of memory, the farm was given up.
pub fn farm_has_ended<O: OneToOne>()
    ensures ended { (funs : List Fun) (X : List Record) (parts : List (Part O)) (came : List (Numbered Outcome)) → 1 ≤ length parts
        → IsDealt dealt_to parts X → IsCollected results_of parts came → (o : Option (Numbered Fault)) (e : Ending) → AllByRecursion (HasTriedAll O.one) parts → Least o came
        → HasEnded (StepRuns O.one funs (Farm (map worker_of parts))) (stream X e) (stream (goods_of came) (end_by (fault_of o) e)) }
    ensures given_up { (funs : List Fun) (X : List Record) (parts : List (Part O)) (came : List (Numbered Outcome)) → 1 ≤ length parts
        → IsDealt dealt_to parts X → IsCollected results_of parts came → (e : Ending) → AllByRecursion (HasTriedSome O.one) parts
        → HasEnded (StepRuns O.one funs (Farm (map worker_of parts))) (stream X e) (stream (goods_of came) cut) }
{}
