// The order of no-go boxes (document 02, paper 2): it makes no difference to any answer (specs/AnyOrder), and of all orders of a sheet's boxes
// just one is valid, if no two are equal (specs/OneOrder). There is no code here: `sheet_validation` has the code that tests the order.
#![tactic(auto)]
