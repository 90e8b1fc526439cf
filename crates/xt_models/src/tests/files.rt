//! Models as a compiler of a modelling language writes them: predicates of a library, introduced variables, annotations with
//! nested calls and strings, and shown arrays.

/// Texts, and how they are written.
pub const FILES: &[(&str, &str)] = &[
    // Four queens by differences of constants.
    (
        "% compiled from queens.mzn\n\
         predicate fzn_all_different_int(array [int] of var int: x);\n\
         array [1..2] of int: X_INTRODUCED_4_ = [1,-1];\n\
         var 1..4: X_INTRODUCED_0_;\n\
         var 1..4: X_INTRODUCED_1_;\n\
         var bool: X_INTRODUCED_2_ ::var_is_introduced :: is_defined_var;\n\
         array [1..2] of var int: q:: output_array([1..2]) = [X_INTRODUCED_0_,X_INTRODUCED_1_];\n\
         constraint int_lin_ne(X_INTRODUCED_4_,q,1);\n\
         constraint int_lin_ne(X_INTRODUCED_4_,[X_INTRODUCED_0_,X_INTRODUCED_1_],-1);\n\
         constraint int_ne_reif(X_INTRODUCED_0_,X_INTRODUCED_1_,X_INTRODUCED_2_):: defines_var(X_INTRODUCED_2_);\n\
         constraint bool_eq(X_INTRODUCED_2_,true);\n\
         solve :: seq_search([int_search(q, first_fail, indomain_min, complete), bool_search([X_INTRODUCED_2_], input_order, indomain_max)]) satisfy;\n",
        "var 1..4: X_INTRODUCED_0_;\n\
         var 1..4: X_INTRODUCED_1_;\n\
         var bool: X_INTRODUCED_2_;\n\
         array [1..2] of var int: q :: output_array([1..2]) = [X_INTRODUCED_0_,X_INTRODUCED_1_];\n\
         constraint int_lin_ne([1,-1],[X_INTRODUCED_0_,X_INTRODUCED_1_],1);\n\
         constraint int_lin_ne([1,-1],[X_INTRODUCED_0_,X_INTRODUCED_1_],-1);\n\
         constraint int_ne_reif(X_INTRODUCED_0_,X_INTRODUCED_1_,X_INTRODUCED_2_);\n\
         constraint bool_eq(X_INTRODUCED_2_,true);\n\
         solve satisfy;\n",
    ),
    // A knapsack, with paths of the model in strings, and an objective.
    (
        "array [1..3] of int: weight = [0x7,5,0o12];\n\
         array [1..3] of int: profit = [-13,-10,-21];\n\
         var 0..1: take_1 :: mzn_path(\"knapsack.mzn|4|1|4|20;p|i=1\");\n\
         var 0..1: take_2 :: mzn_path(\"a \\\"quoted\\\" path\");\n\
         var 0..1: take_3;\n\
         var 0..44: total :: is_defined_var :: output_var;\n\
         array [1..3] of var 0..1: take :: output_array([1..3]) = [take_1,take_2,take_3];\n\
         constraint int_lin_le(weight,take,15) :: mzn_constraint_name(\"capacity\");\n\
         constraint int_lin_eq([-13,-10,-21,1],[take_1,take_2,take_3,total],0) :: ctx([a(1.5),b([2.0e-3,c])]) :: defines_var(total);\n\
         solve maximize total;\n",
        "var 0..1: take_1;\n\
         var 0..1: take_2;\n\
         var 0..1: take_3;\n\
         var 0..44: total :: output_var;\n\
         array [1..3] of var int: take :: output_array([1..3]) = [take_1,take_2,take_3];\n\
         constraint int_lin_le([7,5,10],[take_1,take_2,take_3],15);\n\
         constraint int_lin_eq([-13,-10,-21,1],[take_1,take_2,take_3,total],0);\n\
         solve maximize total;\n",
    ),
    // A grid shown in two dimensions, an empty array, sets and a bound variable.
    (
        "set of int: open = {2,4};\n\
         set of int: none = {};\n\
         array [1..0] of int: empty = [];\n\
         var {2,4}: cell_1;\n\
         var 1..4: cell_2 :: output_var = cell_1;\n\
         var 3..3: cell_3;\n\
         var bool: free;\n\
         array [1..4] of var int: grid :: output_array([1..2,0..1]) = [cell_1,cell_2,cell_3,4];\n\
         array [1..0] of var int: nothing :: output_array([1..0]) = [];\n\
         constraint set_in(cell_2,open);\n\
         constraint set_in_reif(grid[3],none,free);\n\
         constraint array_bool_or([free,false],true) :: domain_propagation;\n\
         constraint int_lin_le(empty,empty,0);\n\
         solve :: warm_start(grid,[2,4,3,4]) minimize grid[1];\n",
        "var {2,4}: cell_1;\n\
         var 1..4: cell_2 :: output_var = cell_1;\n\
         var 3..3: cell_3;\n\
         var bool: free;\n\
         array [1..4] of var int: grid :: output_array([1..2,0..1]) = [cell_1,cell_2,cell_3,4];\n\
         constraint set_in(cell_2,{2,4});\n\
         constraint set_in_reif(cell_3,{},free);\n\
         constraint array_bool_or([free,false],true);\n\
         constraint int_lin_le([],[],0);\n\
         solve minimize cell_1;\n",
    ),
];
