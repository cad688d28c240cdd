/// A model and what it declares.
#[derive(Clone, Copy, Debug)]
pub(crate) struct Row {
    pub model: &'static str,
    pub want: &'static str,
}

pub(crate) static EMPLOYEES: &[Row] = &[Row {
    model: "model Employees
enum Grade {junior, senior}
abstract class Being
attributes
  name : String
end
class Person < Being
attributes
  age : Integer
  salary : Integer
  grade : Grade
operations
  raise(amount : Integer) : Integer
  begin
    self.salary := self.salary + amount;
    result := self.salary
  end
    pre positive: amount > 0
    post paid: self.salary = self.salary@pre + amount
  label() : String = self.name.concat('!')
end
class Department < Being
attributes
  budget : Integer
end
class Project < Being
end
association WorksIn between
  Person[*] role staff
  Department[1] role dept
end
association WorksOn between
  Person[*] role member
  Project[*] role project ordered
end
composition Controls between
  Department[1] role owner
  Project[*] role owned
end
constraints
context Person
  inv adult: age >= 18
  inv paid: salary > 0
context Department
  inv afford: budget >= staff.salary->sum()
  inv named: name.size() > 0
context Project
  inv staffed: member->notEmpty()
  inv local: member->forAll(m | m.dept = owner)
",
    want: "model Employees@1:7
enum Grade@2:6 of junior@2:13 senior@2:21
abstract class Being@3:16 <
 attr name@5:3 : String@5:10
class Person@7:7 < Being@7:16
 attr age@9:3 : Integer@9:9
 attr salary@10:3 : Integer@10:12
 attr grade@11:3 : Grade@11:11
 op raise@13:3 ( amount@13:9 : Integer@13:18 ) : Integer@13:29 soil
 op label@20:3 ( ) : String@20:13 query
class Department@22:7 < Being@22:20
 attr budget@24:3 : Integer@24:12
class Project@26:7 < Being@26:17
assoc WorksIn@28:13
 end Person@29:3 [ * 0 up@29:10 ] staff@29:18
 end Department@30:3 [ 1 1 to 1@30:14 ] dept@30:22
assoc WorksOn@32:13
 end Person@33:3 [ * 0 up@33:10 ] member@33:18
 end Project@34:3 [ * 0 up@34:11 ] project@34:19 ordered
assoc Controls@36:13
 end Department@37:3 [ 1 1 to 1@37:14 ] owner@37:22
 end Project@38:3 [ * 0 up@38:11 ] owned@38:19
pre here raise@13:3 of Person@7:7 positive@18:9
post here raise@13:3 of Person@7:7 paid@19:10
inv of Person@41:9 adult@42:7
inv of Person@41:9 paid@43:7
inv of Department@44:9 afford@45:7
inv of Department@44:9 named@46:7
inv of Project@47:9 staffed@48:7
inv of Project@47:9 local@49:7
",
}];

pub(crate) static TYPES: &[Row] = &[
    Row {
        model: "model M class A attributes x : Set(Sequence(Bag(OrderedSet(B)))) = Set{} end",
        want: "model M@1:7
class A@1:15 <
 derived x@1:28 : Set Sequence Bag OrderedSet B@1:60
",
    },
    Row {
        model: "model M class A < B , C operations f(a : Set(A), b : B); g() : Bag(C) end",
        want: "model M@1:7
class A@1:15 < B@1:19 C@1:23
 op f@1:36 ( a@1:38 : Set A@1:46 b@1:50 : B@1:54 )
 op g@1:58 ( ) : Bag C@1:68
",
    },
];

pub(crate) static MULTIPLICITIES: &[Row] = &[Row {
    model: "model M association R between A[5, 0 .. 1, 2..*] role a B[*,0] role b ordered end",
    want: "model M@1:7
assoc R@1:21
 end A@1:31 [ 5 5 to 5@1:33 0..1 0 to 1@1:36 2..* 2 up@1:44 ] a@1:55
 end B@1:57 [ * 0 up@1:59 0 0 to 0@1:61 ] b@1:69 ordered
",
}];

pub(crate) static ROLES: &[Row] = &[
    Row {
        model: "model M aggregation R between Person[1] ordered View[1] end",
        want: "model M@1:7
assoc R@1:21
 end Person@1:31 [ 1 1 to 1@1:38 ] person@1:31 ordered
 end View@1:49 [ 1 1 to 1@1:54 ] view@1:49
",
    },
    Row {
        model: "model M association R between Class[1] _A[1] end",
        want: "model M@1:7
assoc R@1:21
 end Class@1:31 [ 1 1 to 1@1:37 ] Class@1:31
 end _A@1:40 [ 1 1 to 1@1:43 ] _A@1:40
",
    },
];

pub(crate) static CONDITIONS: &[Row] = &[
    // Before, in and behind a class.
    Row {
        model: "model M
constraints context A inv: true context A::f() post: true
class A operations f() pre: true post: true g() pre: true constraints inv: true inv x: true end
constraints context v : A inv: true context B inv: true
  context A::f(n : Integer) : Integer pre: true post y: true post: true",
        want: "model M@1:7
class A@3:7 <
 op f@3:20 ( )
 op g@3:45 ( )
inv of A@2:21 inv1@2:23
post named f@2:44 ( ) of A@2:41 post1@2:48
pre here f@3:20 of A@3:7 pre1@3:24
post here f@3:20 of A@3:7 post2@3:34
pre here g@3:45 of A@3:7 pre1@3:49
inv of A@3:7 inv2@3:71
inv of A@3:7 x@3:85
inv of A@4:25 inv4@4:27
inv of B@4:45 inv1@4:47
pre named f@5:14 ( n@5:16 : Integer@5:20 ) : Integer@5:31 of A@5:11 pre2@5:39
post named f@5:14 ( n@5:16 : Integer@5:20 ) : Integer@5:31 of A@5:11 y@5:54
post named f@5:14 ( n@5:16 : Integer@5:20 ) : Integer@5:31 of A@5:11 post4@5:62
",
    },
];
