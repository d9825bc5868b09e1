// Whether two jobs of a plan clash: "so clashes hang on rows and sizes alone" (document 01, From samples to edges).
#![tactic(auto)]

pub mod hits;
pub mod pair;
pub mod rect;
