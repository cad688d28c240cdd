ghost use Rattle.std.specs.Prelude.{◌≡◌, ◌+◌, ◌<◌, ◌∷◌, [], length, map, true, false, All, IfOk, MatchOption, OnOk, ⊤};
ghost use Rattle.std.specs.Option.{option_copied};
ghost use Rattle.ocl_values.specs.Shape.{IsWellMade};
ghost use Rattle.ocl_values.specs.declared.value.Value.TheVariants.{Coll};
ghost use Rattle.ocl_eval.specs.Parts.{Evaluates, ev_in};
ghost use Rattle.ocl_eval.specs.Evaluations.{Gives, GivesAs};
ghost use Rattle.ocl_eval.specs.Nodes.{gathered, iterate, iterate_step, iterator, maybe, over, over_source, visit, visits, unvisited};
ghost use Rattle.ocl_eval.specs.Places.{front};
ghost use Rattle.ocl_eval.specs.Walks.{visits_pairs, visits_with};
ghost use Rattle.ocl_operations.specs.Iterators.{bindings, may_have, takes_all};
ghost use Rattle.ocl_core.specs.Trees.{IsSound};
ghost use Rattle.ocl_core.specs.Programs.{IsSoundProgram};

use crate::costs::pay;
use crate::node::Node;
use crate::walks::Visited;
use crate::{Meter, Setting, States, Stop, Values};
use ocl_core::{Expr, IterOp, Kind};
use ocl_operations::{as_source, ends_walk, iterator_value, may_have, wants_start};
use ocl_values::{Value, elements_are_well_made};

impl<S, V: States<S>, F> Node<'_, S, V, F>
where
    F: Fn(&Setting<'_, V>, &Expr, &mut Values, &mut Meter, &mut S) -> Result<Value, Stop>,
{
    /// Adds the value of the body for one element, which takes the innermost place.
    #[inline]
    fn visit(
        &self,
        op: IterOp,
        body: &Expr,
        seen: &mut Visited,
        x: &Value,
        locals: &mut Values,
        meter: &mut Meter,
        steps: &mut S,
    ) -> Result<(), Stop>
        requires parts { Evaluates V.now V.pre V.count self.now.setting.levels (F.pre self.now.value) (F.post self.now.value) }
        requires program { IsSoundProgram self.now.setting.program.now }
        requires tree { IsSound body.now }
        requires well { IsWellMade x.now }
        requires place { 0 < length locals.old }
        ensures value { GivesAs (λ u. seen.new) (visit (ev_in V.now V.pre self.now.setting) (front 1 locals.old) op body.now seen.old (x.now ∷ []) meter.old) result meter.new }
        ensures one { OnOk result (length seen.new.values ≡ length seen.old.values + 1) }
        ensures goes { takes_all op ≡ true → OnOk result (seen.new.ended ≡ false) }
        ensures others { front 1 locals.new ≡ front 1 locals.old }
        ensures places { length locals.new ≡ length locals.old }
        ensures ticks { V.count steps.new + meter.new.fuel ≡ V.count steps.old + meter.old.fuel }
    {
        let x = x.try_copy(self.setting.alloc)?;
        locals.set_last(x);
        let value = self.part(body, locals, meter, steps)?;
        seen.ended = ends_walk(op, &value);
        seen.values.push(value)?;
        Ok(())
    }

    /// The values of the body for each element in turn, which takes the innermost place.
    #[tactic(auto, unfolding(crate::specs::Nodes::visits))]
    fn visits_in_place(
        &self,
        op: IterOp,
        body: &Expr,
        before: Visited,
        items: &[Value],
        locals: &mut Values,
        meter: &mut Meter,
        steps: &mut S,
    ) -> Result<Visited, Stop>
        requires parts { Evaluates V.now V.pre V.count self.now.setting.levels (F.pre self.now.value) (F.post self.now.value) }
        requires program { IsSoundProgram self.now.setting.program.now }
        requires tree { IsSound body.now }
        requires well { All IsWellMade items.now }
        requires place { 0 < length locals.old }
        ensures value { Gives (visits (ev_in V.now V.pre self.now.setting) (front 1 locals.old) op body.now before (map
            (λ x. x ∷ []) items.now) meter.old) result meter.new }
        ensures every { takes_all op ≡ true → before.ended ≡ false → IfOk result (λ seen. length seen.values ≡ length before.values + length items.now) }
        ensures others { front 1 locals.new ≡ front 1 locals.old }
        ensures places { length locals.new ≡ length locals.old }
        ensures ticks { V.count steps.new + meter.new.fuel ≡ V.count steps.old + meter.old.fuel }
    {
        let mut seen = before;
        let mut rest = items;
        'elements: while let [x, more @ ..] = rest {
            if seen.ended {
                return Ok(seen);
            }
            self.visit(op, body, &mut seen, x, locals, meter, steps)?;
            rest = more;
        }
        Ok(seen)
    }

    /// The values of the body for each element in turn.
    fn visits(
        &self,
        op: IterOp,
        body: &Expr,
        before: Visited,
        items: &[Value],
        locals: &mut Values,
        meter: &mut Meter,
        steps: &mut S,
    ) -> Result<Visited, Stop>
        requires parts { Evaluates V.now V.pre V.count self.now.setting.levels (F.pre self.now.value) (F.post self.now.value) }
        requires program { IsSoundProgram self.now.setting.program.now }
        requires tree { IsSound body.now }
        requires well { All IsWellMade items.now }
        ensures value { Gives (visits (ev_in V.now V.pre self.now.setting) locals.old op body.now before (map
            (λ x. x ∷ []) items.now) meter.old) result meter.new }
        ensures every { takes_all op ≡ true → before.ended ≡ false → IfOk result (λ seen. length seen.values ≡ length before.values + length items.now) }
        ensures locals { locals.new ≡ locals.old }
        ensures ticks { V.count steps.new + meter.new.fuel ≡ V.count steps.old + meter.old.fuel }
    {
        locals.push(Value::Null)?;
        let seen = self.visits_in_place(op, body, before, items, locals, meter, steps);
        locals.drop_last();
        seen
    }

    /// The values of the body for the pairs of one first element.
    #[tactic(auto, using(crate::proofs::Pairs::shifted), unfolding(crate::specs::Walks::visits_with))]
    fn visits_with(
        &self,
        op: IterOp,
        body: &Expr,
        items: &[Value],
        before: Visited,
        x: &Value,
        locals: &mut Values,
        meter: &mut Meter,
        steps: &mut S,
    ) -> Result<Visited, Stop>
        requires parts { Evaluates V.now V.pre V.count self.now.setting.levels (F.pre self.now.value) (F.post self.now.value) }
        requires program { IsSoundProgram self.now.setting.program.now }
        requires tree { IsSound body.now }
        requires first { IsWellMade x.now }
        requires well { All IsWellMade items.now }
        ensures value { Gives (visits_with (ev_in V.now V.pre self.now.setting) locals.old op body.now items.now before x.now meter.old) result meter.new }
        ensures locals { locals.new ≡ locals.old }
        ensures ticks { V.count steps.new + meter.new.fuel ≡ V.count steps.old + meter.old.fuel }
    {
        locals.push(x.try_copy(self.setting.alloc)?)?;
        let seen = self.visits(op, body, before, items, locals, meter, steps);
        locals.pop();
        seen
    }

    /// The values of the body for each pair of elements, of which the first is one of some.
    #[tactic(auto, unfolding(crate::specs::Walks::visits_pairs))]
    fn visits_pairs(
        &self,
        op: IterOp,
        body: &Expr,
        items: &[Value],
        before: Visited,
        firsts: &[Value],
        locals: &mut Values,
        meter: &mut Meter,
        steps: &mut S,
    ) -> Result<Visited, Stop>
        requires parts { Evaluates V.now V.pre V.count self.now.setting.levels (F.pre self.now.value) (F.post self.now.value) }
        requires program { IsSoundProgram self.now.setting.program.now }
        requires tree { IsSound body.now }
        requires firsts { All IsWellMade firsts.now }
        requires well { All IsWellMade items.now }
        ensures value { Gives (visits_pairs
            (ev_in V.now V.pre self.now.setting) locals.old op body.now items.now before firsts.now meter.old) result meter.new }
        ensures locals { locals.new ≡ locals.old }
        ensures ticks { V.count steps.new + meter.new.fuel ≡ V.count steps.old + meter.old.fuel }
    {
        let mut seen = before;
        let mut rest = firsts;
        'firsts: while let [x, more @ ..] = rest {
            seen = self.visits_with(op, body, items, seen, x, locals, meter, steps)?;
            rest = more;
        }
        Ok(seen)
    }

    /// One turn of `iterate`, whose variable and accumulator take the innermost places.
    #[inline]
    fn turn(
        &self,
        body: &Expr,
        acc: Value,
        x: &Value,
        locals: &mut Values,
        meter: &mut Meter,
        steps: &mut S,
    ) -> Result<Value, Stop>
        requires parts { Evaluates V.now V.pre V.count self.now.setting.levels (F.pre self.now.value) (F.post self.now.value) }
        requires program { IsSoundProgram self.now.setting.program.now }
        requires tree { IsSound body.now }
        requires acc { IsWellMade acc }
        requires well { IsWellMade x.now }
        requires place { 1 < length locals.old }
        ensures value { Gives (iterate_step (ev_in V.now V.pre self.now.setting) (front 2 locals.old) body.now acc x.now meter.old) result meter.new }
        ensures well_made { IfOk result IsWellMade }
        ensures others { front 2 locals.new ≡ front 2 locals.old }
        ensures places { length locals.new ≡ length locals.old }
        ensures ticks { V.count steps.new + meter.new.fuel ≡ V.count steps.old + meter.old.fuel }
    {
        let x = x.try_copy(self.setting.alloc)?;
        locals.set_last_two(x, acc);
        self.part(body, locals, meter, steps)
    }

    /// `iterate` where the innermost places are free for its variable and accumulator.
    #[tactic(auto, unfolding(crate::specs::Nodes::iterate))]
    fn iterate_in_place(
        &self,
        body: &Expr,
        start: Value,
        items: &[Value],
        locals: &mut Values,
        meter: &mut Meter,
        steps: &mut S,
    ) -> Result<Value, Stop>
        requires parts { Evaluates V.now V.pre V.count self.now.setting.levels (F.pre self.now.value) (F.post self.now.value) }
        requires program { IsSoundProgram self.now.setting.program.now }
        requires tree { IsSound body.now }
        requires start { IsWellMade start }
        requires well { All IsWellMade items.now }
        requires place { 1 < length locals.old }
        ensures value { Gives (iterate (ev_in V.now V.pre self.now.setting) (front 2 locals.old) body.now start items.now meter.old) result meter.new }
        ensures well_made { IfOk result IsWellMade }
        ensures others { front 2 locals.new ≡ front 2 locals.old }
        ensures places { length locals.new ≡ length locals.old }
        ensures ticks { V.count steps.new + meter.new.fuel ≡ V.count steps.old + meter.old.fuel }
    {
        let mut acc = start;
        let mut rest = items;
        'elements: while let [x, more @ ..] = rest {
            acc = self.turn(body, acc, x, locals, meter, steps)?;
            rest = more;
        }
        Ok(acc)
    }

    /// `iterate` where the innermost place is free for its variable.
    fn iterate_inside(
        &self,
        body: &Expr,
        start: Value,
        items: &[Value],
        locals: &mut Values,
        meter: &mut Meter,
        steps: &mut S,
    ) -> Result<Value, Stop>
        requires parts { Evaluates V.now V.pre V.count self.now.setting.levels (F.pre self.now.value) (F.post self.now.value) }
        requires program { IsSoundProgram self.now.setting.program.now }
        requires tree { IsSound body.now }
        requires start { IsWellMade start }
        requires well { All IsWellMade items.now }
        requires place { 0 < length locals.old }
        ensures value { Gives (iterate (ev_in V.now V.pre self.now.setting) (front 1 locals.old) body.now start items.now meter.old) result meter.new }
        ensures well_made { IfOk result IsWellMade }
        ensures others { front 1 locals.new ≡ front 1 locals.old }
        ensures places { length locals.new ≡ length locals.old }
        ensures ticks { V.count steps.new + meter.new.fuel ≡ V.count steps.old + meter.old.fuel }
    {
        locals.push(Value::Null)?;
        let value = self.iterate_in_place(body, start, items, locals, meter, steps);
        locals.drop_last();
        value
    }

    fn iterate(
        &self,
        body: &Expr,
        start: Value,
        items: &[Value],
        locals: &mut Values,
        meter: &mut Meter,
        steps: &mut S,
    ) -> Result<Value, Stop>
        requires parts { Evaluates V.now V.pre V.count self.now.setting.levels (F.pre self.now.value) (F.post self.now.value) }
        requires program { IsSoundProgram self.now.setting.program.now }
        requires tree { IsSound body.now }
        requires start { IsWellMade start }
        requires well { All IsWellMade items.now }
        ensures value { Gives (iterate (ev_in V.now V.pre self.now.setting) locals.old body.now start items.now meter.old) result meter.new }
        ensures well_made { IfOk result IsWellMade }
        ensures locals { locals.new ≡ locals.old }
        ensures ticks { V.count steps.new + meter.new.fuel ≡ V.count steps.old + meter.old.fuel }
    {
        locals.push(Value::Null)?;
        let value = self.iterate_inside(body, start, items, locals, meter, steps);
        locals.drop_last();
        value
    }

    /// The start of `iterate`, if there is one.
    fn maybe(
        &self,
        start: Option<&Expr>,
        locals: &mut Values,
        meter: &mut Meter,
        steps: &mut S,
    ) -> Result<Option<Value>, Stop>
        requires parts { Evaluates V.now V.pre V.count self.now.setting.levels (F.pre self.now.value) (F.post self.now.value) }
        requires program { IsSoundProgram self.now.setting.program.now }
        requires tree { MatchOption (option_copied start) ⊤ IsSound }
        ensures value { Gives (maybe (ev_in V.now V.pre self.now.setting) locals.old (option_copied start.entry) meter.old) result meter.new }
        ensures well_made { IfOk result (λ x. MatchOption x ⊤ IsWellMade) }
        ensures locals { locals.new ≡ locals.old }
        ensures ticks { V.count steps.new + meter.new.fuel ≡ V.count steps.old + meter.old.fuel }
    {
        match start {
            None => Ok(None),
            Some(e) => {
                let x = self.part(e, locals, meter, steps)?;
                Ok(Some(x))
            }
        }
    }

    /// The values of the body for all bindings of the variables.
    fn all_visits(
        &self,
        op: IterOp,
        count: u32,
        body: &Expr,
        items: &[Value],
        locals: &mut Values,
        meter: &mut Meter,
        steps: &mut S,
    ) -> Result<Visited, Stop>
        requires parts { Evaluates V.now V.pre V.count self.now.setting.levels (F.pre self.now.value) (F.post self.now.value) }
        requires program { IsSoundProgram self.now.setting.program.now }
        requires tree { IsSound body.now }
        requires well { All IsWellMade items.now }
        ensures value { Gives (visits (ev_in V.now V.pre self.now.setting) locals.old op body.now unvisited
            (bindings count items.now) meter.old) result meter.new }
        ensures every { takes_all op ≡ true → may_have op count ≡ true → IfOk result (λ seen. length seen.values ≡ length items.now) }
        ensures locals { locals.new ≡ locals.old }
        ensures ticks { V.count steps.new + meter.new.fuel ≡ V.count steps.old + meter.old.fuel }
    {
        let values = Values::with_capacity(self.setting.alloc, items.len())?;
        let none = Visited {
            values,
            ended: false,
        };
        if count == 2 {
            self.visits_pairs(op, body, items, none, items, locals, meter, steps)
        } else {
            self.visits(op, body, none, items, locals, meter, steps)
        }
    }

    /// An iterator but `iterate` over the elements of a collection.
    #[tactic(auto, unfolding(crate::specs::Nodes::gathered))]
    fn gathered(
        &self,
        op: IterOp,
        count: u32,
        body: &Expr,
        kind: Kind,
        items: Vec<Value>,
        locals: &mut Values,
        meter: &mut Meter,
        steps: &mut S,
    ) -> Result<Value, Stop>
        requires parts { Evaluates V.now V.pre V.count self.now.setting.levels (F.pre self.now.value) (F.post self.now.value) }
        requires program { IsSoundProgram self.now.setting.program.now }
        requires tree { IsSound body.now }
        requires well { IsWellMade (Coll kind items.items) }
        requires count { may_have op count ≡ true }
        ensures value { Gives (gathered (ev_in V.now V.pre self.now.setting) locals.old op count body.now kind items.items meter.old) result meter.new }
        ensures well_made { IfOk result IsWellMade }
        ensures locals { locals.new ≡ locals.old }
        ensures ticks { V.count steps.new + meter.new.fuel ≡ V.count steps.old + meter.old.fuel }
    {
        elements_are_well_made();
        let seen = self.all_visits(op, count, body, items.as_slice(), locals, meter, steps)?;
        let values = seen.values.into_vec();
        let value = iterator_value(self.setting.alloc, op, kind, items, values)?;
        Ok(value)
    }

    /// An iterator over the elements of a collection.
    fn over(
        &self,
        op: IterOp,
        count: u32,
        first: Option<Value>,
        body: &Expr,
        kind: Kind,
        items: Vec<Value>,
        locals: &mut Values,
        meter: &mut Meter,
        steps: &mut S,
    ) -> Result<Value, Stop>
        requires parts { Evaluates V.now V.pre V.count self.now.setting.levels (F.pre self.now.value) (F.post self.now.value) }
        requires program { IsSoundProgram self.now.setting.program.now }
        requires tree { IsSound body.now }
        requires start { MatchOption first ⊤ IsWellMade }
        requires well { IsWellMade (Coll kind items.items) }
        ensures value { Gives (over (ev_in V.now V.pre self.now.setting) locals.old op count first body.now kind items.items meter.old) result meter.new }
        ensures well_made { IfOk result IsWellMade }
        ensures locals { locals.new ≡ locals.old }
        ensures ticks { V.count steps.new + meter.new.fuel ≡ V.count steps.old + meter.old.fuel }
    {
        elements_are_well_made();
        match first {
            Some(start) => {
                if wants_start(op) && may_have(op, count) {
                    self.iterate(body, start, items.as_slice(), locals, meter, steps)
                } else {
                    Ok(Value::Invalid)
                }
            }
            None => {
                if !wants_start(op) && may_have(op, count) {
                    self.gathered(op, count, body, kind, items, locals, meter, steps)
                } else {
                    Ok(Value::Invalid)
                }
            }
        }
    }

    /// An iterator over a source.
    fn over_source(
        &self,
        op: IterOp,
        count: u32,
        first: Option<Value>,
        body: &Expr,
        source: Value,
        locals: &mut Values,
        meter: &mut Meter,
        steps: &mut S,
    ) -> Result<Value, Stop>
        requires parts { Evaluates V.now V.pre V.count self.now.setting.levels (F.pre self.now.value) (F.post self.now.value) }
        requires program { IsSoundProgram self.now.setting.program.now }
        requires tree { IsSound body.now }
        requires start { MatchOption first ⊤ IsWellMade }
        requires well { IsWellMade source }
        ensures value { Gives (over_source (ev_in V.now V.pre self.now.setting) locals.old op count first body.now source meter.old) result meter.new }
        ensures well_made { IfOk result IsWellMade }
        ensures locals { locals.new ≡ locals.old }
        ensures ticks { V.count steps.new + meter.new.fuel ≡ V.count steps.old + meter.old.fuel }
    {
        match source {
            Value::Coll(kind, items) => {
                self.over(
                    op,
                    count,
                    first,
                    body,
                    kind,
                    items.into_vec(),
                    locals,
                    meter,
                    steps,
                )
            }
            _ => Ok(Value::Invalid),
        }
    }

    #[tactic(auto, unfolding(crate::specs::Nodes::iterator))]
    #[inline(never)]
    pub(crate) fn iterator(
        &self,
        op: IterOp,
        source: &Expr,
        count: u32,
        start: Option<&Expr>,
        body: &Expr,
        locals: &mut Values,
        meter: &mut Meter,
        steps: &mut S,
    ) -> Result<Value, Stop>
        requires parts { Evaluates V.now V.pre V.count self.now.setting.levels (F.pre self.now.value) (F.post self.now.value) }
        requires program { IsSoundProgram self.now.setting.program.now }
        requires source { IsSound source.now }
        requires start { MatchOption (option_copied start) ⊤ IsSound }
        requires tree { IsSound body.now }
        ensures value { Gives (iterator (ev_in V.now V.pre self.now.setting) locals.old op source.now count
            (option_copied start.entry) body.now meter.old) result meter.new }
        ensures well_made { IfOk result IsWellMade }
        ensures locals { locals.new ≡ locals.old }
        ensures ticks { V.count steps.new + meter.new.fuel ≡ V.count steps.old + meter.old.fuel }
    {
        let x = self.part(source, locals, meter, steps)?;
        let first = self.maybe(start, locals, meter, steps)?;
        let elements = as_source(self.setting.alloc, x)?;
        let value = self.over_source(op, count, first, body, elements, locals, meter, steps)?;
        pay(self.setting.states, value, meter, steps)
    }
}
