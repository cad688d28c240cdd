/// Persons and companies, and two enumerations that share a literal.
pub(super) const WORK: &str = "model Work enum Grade {junior, senior} enum Color {red, green} \
    enum Light {red, amber} class Person attributes name : String age : Integer grade : Grade \
    operations older(by : Integer) : Integer = age + by \
    rename(to : String) begin self.name := to end end class Manager < Person end \
    class Company attributes title : String end association WorksFor between \
    Person[*] role staff Company[0..1] role employer end";

/// Departments with their persons and projects.
pub(super) const EMPLOYEES: &str = "model Employees enum Grade {junior, senior} \
    abstract class Being attributes name : String end \
    class Person < Being attributes age : Integer salary : Integer grade : Grade \
    operations raise(amount : Integer) : Integer \
    begin self.salary := self.salary + amount; result := self.salary end \
    label() : String = self.name.concat('!') end \
    class Department < Being attributes budget : Integer end class Project < Being end \
    association WorksIn between Person[*] role staff Department[1] role dept end \
    association WorksOn between Person[*] role member Project[*] role project ordered end \
    composition Controls between Department[1] role owner Project[*] role owned end";
