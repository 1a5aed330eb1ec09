//! Laws of file names.
ghost use Rattle.std.specs.Prelude.{◌≡◌, ◌≢◌, ℕ, List};
ghost use Rattle.rk_bytes.specs.declared.model.name.FileName.{FileName};
ghost use Rattle.rk_bytes.specs.declared.model.name.FileName.TheVariants.{Lost, Other};
ghost use Rattle.rk_bytes.specs.Model.FileNames.{IsPrinted, printed_name, name_of};

/// Law: a printed name is read again, and a text that is read as any other name than one below `lost/` or
/// an unknown one is that name printed.
pub fn one_name()
    ensures read { (name : FileName) → IsPrinted name → name_of (printed_name name) ≡ name }
    ensures printed { (text : List ℕ) → name_of text ≢ Lost → name_of text ≢ Other → IsPrinted (name_of text) × (printed_name (name_of text) ≡ text) }
{}
