//! Layouts of scopes and the definition of terms: the paths of a layout are those of the scope of terms that it
//! stands for. The functions below have no body, and their contracts are the laws.
#![tactic(auto)]

ghost use Rattle.layout_laws.specs.Laws.{PathsAgree, LayoutsStand, ParametersStand};

/// The path to a name in a layout is the path to the same place in its scope of terms, for variables and for bound
/// witnesses.
pub fn paths_agree_law()
    ensures { PathsAgree }
{}

/// The scope of terms of a layout has the names, the bound witnesses and the type of the layout.
pub fn layouts_stand_law()
    ensures { LayoutsStand }
{}

/// A pattern of names at the types of parameters begins the scope of terms that a function has.
pub fn parameters_stand_law()
    ensures { ParametersStand }
{}
