//! The laws of modules that fit.
ghost use Rattle.record_law.specs.Fits.Laws.{ModulesFit, WrittenTreesStand};

/// A well-formed and valid module fits (`ModuleFits`).
pub fn modules_fit()
    ensures { ModulesFit }
{}

/// It is what the tree that is written of it stands for.
pub fn written_trees_stand()
    ensures { WrittenTreesStand }
{}
