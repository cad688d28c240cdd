use super::Line;

/// A model with contracts, some of them of an ancestor.
pub const STAFF: &str = "model Staff
abstract class Person
attributes
  name : String
operations
  raise(by : Integer)
  pre asked: by <> 13
  post named: self.name = self.name@pre
end
class Emp < Person
attributes
  pay : Integer
  boss : Emp
operations
  raise(by : Integer)
  begin
    self.pay := self.pay + by
  end
  pre positive: by > 0
  post raised: self.pay = self.pay@pre + by
  double() : Integer
  begin
    self.raise(self.pay);
    result := self.pay
  end
  post answer: result = self.pay
  half() : Integer = self.pay div 2
  pre paid: self.pay > 1
  post less: result < self.pay
  lost() : Integer = 1 div 0
  open()
  deep(n : Integer)
  begin
    if n > 0 then self.deep(n - 1) end
  end
  wrong()
  begin
    self.pay := 0;
    self.raise(5);
    self.pay := 7
  end
  post kept: self.pay = self.pay@pre
  sure() : Integer
  begin
    result := self.pay
  end
  pre some: self.boss.pay > 0
  pre never: false
end
";

/// The model of a class whose objects leave.
pub const PERSONS: &str = "model Q
class Person
attributes
  age : Integer
operations
  leave()
  post old: self.age@pre = 7
end
";

/// Calls as statements: their contracts, bodies and results, and each rule that refuses one.
pub static CALLED: &[Line] = &[
    ("!create p : Emp; p.pay := 10; p.name := 'Ann'", ""),
    ("!p.raise(5)", ""),
    ("? p.pay", "-> 15 : Integer\n"),
    (
        "!p.raise(-1)",
        "refused C1 at 4:2: precondition Emp::positive is false\n",
    ),
    (
        "!p.raise(13)",
        "refused C1 at 5:2: precondition Person::asked is false\n",
    ),
    ("? p.pay", "-> 15 : Integer\n"),
    ("!x := p.double()", ""),
    ("? x", "-> 30 : Integer\n"),
    ("!y := p.half()", ""),
    ("!p.half()", ""),
    ("? y", "-> 15 : Integer\n"),
    ("!p.open()", "refused X9 at 12:2: operation has no body\n"),
    (
        "!z := p.lost()",
        "refused X12 at 13:2: value is invalid or holds a destroyed object\n",
    ),
    (
        "!p.lost()",
        "refused X12 at 14:2: value is invalid or holds a destroyed object\n",
    ),
    (
        "!q := null.oclAsType(Emp)",
        "refused X12 at 15:2: value is invalid or holds a destroyed object\n",
    ),
    ("!q.raise(1)", "refused N1 at 16:2: unknown name\n"),
    (
        "!p.raise(1 div 0)",
        "refused X12 at 17:2: value is invalid or holds a destroyed object\n",
    ),
    ("!q.raise(1 div 0)", "refused N1 at 18:2: unknown name\n"),
    (
        "!p.pay := 1; p.raise(2); p.wrong()",
        "refused C2 at 19:26: postcondition Emp::kept is false\n",
    ),
    ("? p.pay", "-> 30 : Integer\n"),
    (
        "!p.wrong()",
        "refused C2 at 21:2: postcondition Emp::kept is false\n",
    ),
    (
        "!p.deep(61)",
        "refused B3 at 22:2: nesting budget is spent\n",
    ),
    (
        "!p.deep(62)",
        "refused B3 at 23:2: nesting budget is spent\n",
    ),
    (
        "!p.deep(63)",
        "refused B3 at 24:2: nesting budget is spent\n",
    ),
    (
        "!if true then p.deep(61) end",
        "refused B3 at 25:15: nesting budget is spent\n",
    ),
    (
        "!p.sure()",
        "refused C1 at 26:2: precondition Emp::some is invalid\n",
    ),
    ("!create b : Emp; p.boss := b", ""),
    (
        "!p.sure()",
        "refused C1 at 28:2: precondition Emp::some is invalid\n",
    ),
    ("!b.pay := 1", ""),
    (
        "!p.sure()",
        "refused C1 at 30:2: precondition Emp::never is false\n",
    ),
    ("undo", ""),
    ("undo", ""),
    (
        "? p.sure()",
        "refused T10 at 33:5: operation is not a query\n",
    ),
    ("!p.boss.raise(1)", "refused X5 at 34:2: no such object\n"),
    ("info vars", "x : Integer = 30\ny : Integer = 15\n"),
    ("undo", ""),
    ("undo", ""),
    ("? p.pay", "-> 30 : Integer\n"),
];

/// Calls that are entered and left, two deep, and taken back and carried out again.
pub static ENTERED: &[Line] = &[
    ("!create p : Emp; p.pay := 10; p.name := 'Ann'", ""),
    ("info opstack", "no open operation\n"),
    ("opexit", "refused C3 at 3:1: no operation is open\n"),
    ("!opexit 1", "refused C3 at 4:2: no operation is open\n"),
    (
        "openter p raise(0)",
        "refused C1 at 5:1: precondition Emp::positive is false\n",
    ),
    (
        "openter p raise(13)",
        "refused C1 at 6:1: precondition Person::asked is false\n",
    ),
    (
        "openter null.oclAsType(Emp) raise(1)",
        "refused X5 at 7:1: no such object\n",
    ),
    (
        "openter p raise(1 div 0)",
        "refused X12 at 8:1: value is invalid or holds a destroyed object\n",
    ),
    (
        "openter p raise(5)",
        "pre Person::asked: true\npre Emp::positive: true\n",
    ),
    ("? self.pay + by", "-> 15 : Integer\n"),
    ("? pay", "-> 10 : Integer\n"),
    ("info opstack", "p.raise(5)\n"),
    ("!pay := 1", ""),
    ("!self.pay := self.pay + by", ""),
    (
        "!openter self raise(7)",
        "pre Person::asked: true\npre Emp::positive: true\n",
    ),
    ("info opstack", "p.raise(7)\np.raise(5)\n"),
    ("? by", "-> 7 : Integer\n"),
    ("!self.pay := 100", ""),
    (
        "opexit",
        "post Person::named: true\npost Emp::raised: false\n",
    ),
    ("? by", "-> 5 : Integer\n"),
    (
        "opexit",
        "post Person::named: true\npost Emp::raised: false\n",
    ),
    ("undo", ""),
    ("info opstack", "p.raise(5)\n"),
    (
        "? self.pay@pre",
        "refused T9 at 24:8: only in postconditions\n",
    ),
    ("undo", ""),
    ("? by", "-> 7 : Integer\n"),
    ("info opstack", "p.raise(7)\np.raise(5)\n"),
    ("!self.pay := self.pay + by", ""),
    ("redo", "refused U2 at 29:1: nothing to redo\n"),
    (
        "opexit",
        "post Person::named: true\npost Emp::raised: false\n",
    ),
    ("!self.pay := 15", ""),
    (
        "opexit",
        "post Person::named: true\npost Emp::raised: true\n",
    ),
    ("openter p double()", ""),
    (
        "opexit",
        "refused T12 at 34:1: result is missing or not wanted\n",
    ),
    (
        "opexit 1 div 0",
        "refused X12 at 35:1: value is invalid or holds a destroyed object\n",
    ),
    ("opexit 15", "post Emp::answer: true\n"),
    ("undo", ""),
    ("opexit 16", "post Emp::answer: false\n"),
    ("redo", "refused U2 at 39:1: nothing to redo\n"),
    ("!x := by", "refused N1 at 40:7: unknown name\n"),
    (
        "openter p sure()",
        "refused C1 at 41:1: precondition Emp::some is invalid\n",
    ),
    ("reset", ""),
    ("info opstack", "no open operation\n"),
    ("opexit", "refused C3 at 44:1: no operation is open\n"),
    ("undo", "refused U1 at 45:1: nothing to undo\n"),
    ("? p", "refused N1 at 46:3: unknown name\n"),
];

/// The receiver of an open call is destroyed.
pub static DESTROYED_RECEIVER: &[Line] = &[
    ("!create p : Person", ""),
    ("!p.age := 7", ""),
    ("!v := p", ""),
    ("!openter p leave()", ""),
    ("!destroy p", ""),
    ("? self.age", "-> invalid : Integer\n"),
    ("? self", "-> destroyed(1) : Person\n"),
    ("info vars", "v : Person = null\n"),
    ("!opexit", "post Person::old: true\n"),
];
