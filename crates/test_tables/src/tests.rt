//! Tests of rows, which are all slots of a table, and of tables over them.
// `rows` tests plain rows and split rows alone. `table` tests tables over them.
mod rows;
mod table;
