//! Imports and exports.

ghost use Rattle.std.specs.Prelude.{[], ◌∷◌};
ghost use Rattle.worked_examples.specs.Asked.{defaults};
ghost use Rattle.worked_examples.specs.Judged.{IsAnswer, IsRefusedBy, Plain, Stay};
ghost use Rattle.worked_examples.specs.Modules as row;

/// What is declared in an export keeps its name, also where an earlier place declares it too; what is exported by a specifier is renamed, and
/// keeps the name under which it is exported.
pub fn exports_stay()
    ensures answer { IsAnswer defaults row.exports row.exports_mangled }
    ensures renamed { IsRefusedBy (Stay ∷ []) defaults row.exports row.exports_renamed }
    ensures other_name { IsRefusedBy (Plain ∷ []) defaults row.exports row.exports_by_another_name }
    ensures function { IsAnswer defaults row.exported_function row.exported_function_mangled }
    ensures again { IsAnswer defaults row.exported_again row.exported_again_mangled }
    ensures again_renamed { IsRefusedBy (Stay ∷ []) defaults row.exported_again row.exported_again_renamed }
{}

/// An import is renamed, and keeps the name that it imports.
pub fn imported_names_stay()
    ensures answer { IsAnswer defaults row.imports row.imports_mangled }
    ensures other_name { IsRefusedBy (Plain ∷ []) defaults row.imports row.imports_of_another_name }
{}

/// What is exported from another module has names of that module, which stay, whatever variables are
/// named; so do the keys of import attributes.
pub fn names_of_other_modules_stay()
    ensures passed_on { IsAnswer defaults row.passed_on row.passed_on_mangled }
    ensures other_name { IsRefusedBy (Plain ∷ []) defaults row.passed_on row.passed_on_of_another_name }
    ensures all { IsAnswer defaults row.all_passed_on row.all_passed_on_mangled }
    ensures all_other_name { IsRefusedBy (Plain ∷ []) defaults row.all_passed_on row.all_passed_on_by_another_name }
    ensures attributes { IsAnswer defaults row.attributes row.attributes_mangled }
    ensures attribute_renamed { IsRefusedBy (Plain ∷ []) defaults row.attributes row.attributes_renamed }
{}

/// The words of `import.meta` are no variables: they stay.
pub fn import_meta_stays()
    ensures answer { IsAnswer defaults row.import_meta row.import_meta_mangled }
    ensures renamed { IsRefusedBy (Plain ∷ []) defaults row.import_meta row.import_meta_renamed }
{}
