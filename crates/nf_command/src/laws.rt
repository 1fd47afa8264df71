//! What follows from the definitions. Each function does nothing, and its clause is the law.

ghost use Rattle.std.specs.Prelude.{◌≡◌, ◌≤◌, ◌⊎◌, ◌∷◌, ℕ, List, Option, None, Some, Result, Ok, MatchResult};
ghost use Rattle.std.specs.declared.alloc.AllocError.{AllocError};
ghost use Rattle.nf_base.specs.declared.limits.TheConstants.{MAX_QUOTA};
ghost use Rattle.nf_base.specs.Naming.{IsName};
ghost use Rattle.nf_base.specs.declared.rows.MetaRow.{MetaRow};
ghost use Rattle.nf_base.specs.declared.rows.Row.{Row};
ghost use Rattle.nf_base.specs.declared.rows.Row.TheVariants.{Meta};
ghost use Rattle.nf_rules.specs.Rules.{AreUnbroken};
ghost use Rattle.nf_command.specs.Command.{IsBatch, IsCommand, IsGenerate, IsInit, IsServe, IsSomeGenerate, IsSomeInit, IsSomeServe, IsSweep};
ghost use Rattle.nf_command.specs.First.{init_rows};
ghost use Rattle.nf_command.specs.Reading.{GivesInit, GivesServe, MayTakeMemory, ReadsCommand};
ghost use Rattle.nf_command.specs.declared.command.Command.{Command};
ghost use Rattle.nf_command.specs.declared.command.Command.TheVariants.{Batch, Generate, Sweep};

/// The words of a `batch` are always read as one.
pub fn batch_is_read()
    ensures { (words : List (List ℕ)) (read : Result (Option Command) AllocError) → IsBatch words → ReadsCommand words read → read ≡ Ok (Some Batch) }
{}

/// Those of an `init` are read as that one, but for want of memory.
pub fn init_is_read()
    ensures { (words : List (List ℕ)) (name : List ℕ) (token : List ℕ) (quota : ℕ) (read : Result (Option Command) AllocError) → IsInit words name token quota → ReadsCommand words read → GivesInit read name token quota }
{}

/// Those of a `serve` are read as one, of as many connections, but for want of memory.
pub fn serve_is_read()
    ensures { (words : List (List ℕ)) (n : ℕ) (read : Result (Option Command) AllocError) → IsServe words n → ReadsCommand words read → GivesServe read n }
{}

/// Those of a `sweep` are always read as one.
pub fn sweep_is_read()
    ensures { (words : List (List ℕ)) (read : Result (Option Command) AllocError) → IsSweep words → ReadsCommand words read → read ≡ Ok (Some Sweep) }
{}

/// Those of a `generate` are always read as that one.
pub fn generate_is_read()
    ensures { (words : List (List ℕ)) (seed : ℕ) (count : ℕ) (read : Result (Option Command) AllocError) → IsGenerate words seed count → ReadsCommand words read → read ≡ Ok (Some (Generate seed count)) }
{}

/// No words are two commands.
pub fn commands_exclude()
    ensures { (words : List (List ℕ)) → (IsBatch words → IsSomeInit words → ⊥) × (IsBatch words → IsSomeServe words → ⊥) × (IsSomeInit words → IsSomeServe words → ⊥) × (IsSweep words → IsBatch words ⊎ (IsSomeInit words ⊎ IsSomeServe words) → ⊥)
        × (IsSomeGenerate words → IsBatch words ⊎ (IsSomeInit words ⊎ (IsSomeServe words ⊎ IsSweep words)) → ⊥) }
{}

/// Words that are no command are told so, or they are those of an `init` but for the name or begin as a `serve`, and memory was wanting.
pub fn others_are_refused()
    ensures { (words : List (List ℕ)) (read : Result (Option Command) AllocError) → (IsCommand words → ⊥) → ReadsCommand words read → MatchResult read (λ command. command ≡ None) (λ error. MayTakeMemory words) }
{}

/// The rows that a store begins with break no rule.
pub fn init_is_unbroken()
    ensures { (name : List ℕ) (token : List ℕ) (quota : ℕ) → IsName name → quota ≤ MAX_QUOTA → AreUnbroken (init_rows name token quota) }
{}

/// The first of them is the meta row.
pub fn init_begins_with_meta()
    ensures { (name : List ℕ) (token : List ℕ) (quota : ℕ) → (meta : MetaRow) × (others : List Row) × (init_rows name token quota ≡ Meta meta ∷ others) }
{}
